//! Which names of a file go into the key of its tables.
use pc_keyed::keyed_by_names;
use pc_test_inputs::{Wrong, tree_of};
use std::alloc::{AllocError, Global};
use std::hash::{BuildHasher, Hasher};

/// Texts with a name whose letter `?` is changed: one for each thing that is named, and then one for each place of an
/// expression, which is followed by a `.` and a name.
const TEXTS: [&[u8]; 23] = [
    b"class C?",
    b"class C let f?: U64",
    b"class C fun m?() => 0",
    b"class C fun m(a?: U64) => 0",
    b"class C fun m() => let a?: U64 = 0",
    b"class C fun m() => this.a?",
    b"class C let f: U64 = this.a?",
    b"class C fun m() => let a: U64 = this.a?",
    b"class C fun m() => 0; this.a?",
    b"class C fun m() => not this.a?",
    b"class C fun m() => 1 + this.a?",
    b"class C fun m() => this.a?.b",
    b"class C fun m() => m(0, this.a?)",
    b"class C fun m() => (this.a?)",
    b"class C fun m() => if this.a? then 0 end",
    b"class C fun m() => if true then this.a? end",
    b"class C fun m() => if true then 0 elseif this.a? then 0 end",
    b"class C fun m() => if true then 0 else this.a? end",
    b"class C fun m() => while this.a? do 0 end",
    b"class C fun m() => while true do this.a? end",
    b"class C fun m() => recover this.a? end",
    b"class C fun m() => this.a? = 0",
    b"class C fun m() => f = this.a?",
];

// The text with this letter instead of `?`.
fn with_letter(alloc: Global, text: &[u8], letter: u8) -> Result<Vec<u8>, AllocError> {
    let mut made = Vec::new(alloc);
    for byte in text {
        made.push(if *byte == b'?' { letter } else { *byte })?;
    }
    Ok(made)
}

/// What a hash gives, or what is wrong with a text.
type Hashed = Result<u64, Wrong>;

// What a hash with the key of the text's tree gives for nothing.
fn hash_of(alloc: Global, text: &[u8], letter: u8) -> Hashed {
    let text = with_letter(alloc, text, letter)?;
    let tree = tree_of(alloc, text.as_slice())?;
    Ok(keyed_by_names(&tree).build_hasher().finish())
}

// The place of the first text whose name is not in the key, and what a hash gives with one letter and with another.
fn without(alloc: Global, texts: &[&[u8]]) -> Option<(usize, Hashed, Hashed)> {
    for at in 0..texts.len() {
        let one = hash_of(alloc, texts[at], b'a');
        let other = hash_of(alloc, texts[at], b'b');
        if one.is_err() || other.is_err() || one == other {
            return Some((at, one, other));
        }
    }
    None
}

#[test]
fn each_name_changes_the_key(rt: HostRuntime) {
    assert_eq!(rt; without(rt.alloc(), &TEXTS), None);
}
