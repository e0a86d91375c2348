//! Laws of all derivation texts.
ghost use Rattle.pc_deriv.specs.Laws.{OneAnnotation, OneFault, NoFaultOfText, CutsAreOne, LinesAreRead, TextsAreTaken, FaultsAreFound, FaultsStay};

/// Bytes are the text of at most one annotation: what was written is what is read.
pub fn annotations_are_one()
    ensures { OneAnnotation }
{}

/// Bytes have at most one fault, and none if they are an annotation's text.
pub fn faults_are_one()
    ensures one { OneFault }
    ensures apart { NoFaultOfText }
{}

/// Whatever the pieces are, the lines that `Lines` returns for them are those of the annotation read, and its first
/// fault is that of `read`.
pub fn pieces_are_read()
    ensures cuts { CutsAreOne }
    ensures whole { LinesAreRead }
    ensures texts { TextsAreTaken }
    ensures faults { FaultsAreFound }
    ensures stays { FaultsStay }
{}
