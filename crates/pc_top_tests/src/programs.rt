//! Derivations for the tests.

/// The derivation of `ONE_OBJECT` in version 1.
pub(crate) const FIRST: &[u8] = b"rcap-derivation 1 4 7\ns 6 ref\ns 7 ref\ns 4 val\ns 6 iso\n\
n prim 0 val 1 0 1 0\nn seq 0 val 1 0 1 0\nn body - 1 0 1 0\nn new 6 iso^ 3 0 3 0\nn define - 3 0 7 0\n\
n seq - 3 0 3 0\nn body - 3 0 3 0\n";

/// The same in version 2.
pub(crate) const SECOND: &[u8] = b"rcap-derivation 2 4 7\ns 6 ref\ns 7 ref\ns 4 val\ns 6 iso\n\
n prim 0 val 1 0 0 0\nn seq 0 val 1 0 0 0\nn body - 1 0 0 0\nn new 6 iso^ 3 0 0 0\nn define - 3 0 4 0\n\
n seq - 3 0 0 0\nn body - 3 0 0 0\n";
