//! The parts of a tree that contain no expression, each appended to a text.
ghost use Rattle.std.specs.Prelude.{◌≡◌, ◌++◌, ◌<◌, ◌/◌, ◌%◌, [], ◌∷◌, if◌then◌else◌, OnOk};
ghost use Rattle.std.specs.Char.{digit_char};
ghost use Rattle.std.specs.Fmt.{decimal};
ghost use Rattle.pc_print.specs.Printing.{escaped};
ghost use Rattle.pc_print.specs.Parts as parts;
ghost use Rattle.pc_print.specs.Printing as text;
ghost use Rattle.pc_token.specs.Words.{word_text};
ghost use Rattle.pc_grammar.specs.Spells.{local_word};

use pc_caps::Cap;
use pc_tree::{Op, TypeRef};
use std::alloc::{AllocError, Global};

// The digit of a number below 16.
fn hex_digit(value: u8) -> u8
    requires { value < 16 }
    ensures { result ≡ digit_char value }
{
    if value < 10 { 48 + value } else { 87 + value }
}

// A byte as two hexadecimal digits.
fn push_digits(out: &mut Vec<u8>, byte: u8) -> Result<(), AllocError>
    ensures { OnOk result (out.new.items ≡ out.old.items ++ 92 ∷ 120 ∷ digit_char (byte / 16) ∷ digit_char (byte % 16) ∷ []) }
{
    out.extend_from_slice(&[b'\\', b'x', hex_digit(byte / 16), hex_digit(byte % 16)])
}

/// One byte of a text literal's value.
#[tactic(auto, unfolding(crate::specs::Printing::escaped))]
pub fn push_escaped(out: &mut Vec<u8>, byte: u8) -> Result<(), AllocError>
    ensures { OnOk result (out.new.items ≡ out.old.items ++ escaped byte) }
{
    if byte == b'"' {
        out.extend_from_slice(b"\\\"")
    } else if byte == b'\\' {
        out.extend_from_slice(b"\\\\")
    } else if byte == b'\n' {
        out.extend_from_slice(b"\\n")
    } else if byte == b'\r' {
        out.extend_from_slice(b"\\r")
    } else if byte == b'\t' {
        out.extend_from_slice(b"\\t")
    } else if byte == 0 {
        out.extend_from_slice(b"\\0")
    } else if byte < 32 || byte == 127 {
        push_digits(out, byte)
    } else {
        out.push(byte)?;
        Ok(())
    }
}

/// A number, in decimal digits.
pub fn push_number(alloc: Global, out: &mut Vec<u8>, value: u64) -> Result<(), AllocError>
    ensures { OnOk result (out.new.items ≡ out.old.items ++ decimal value) }
{
    let digits = format!(in alloc; "{value}")?;
    out.extend_from_slice(digits.as_bytes())
}

/// A capability after a space, if one is written.
pub fn push_cap(out: &mut Vec<u8>, cap: Option<Cap>) -> Result<(), AllocError>
    ensures { OnOk result (out.new.items ≡ out.old.items ++ text.printed_cap cap) }
{
    match cap {
        Some(Cap::Iso) => out.extend_from_slice(b" iso"),
        Some(Cap::Trn) => out.extend_from_slice(b" trn"),
        Some(Cap::Ref) => out.extend_from_slice(b" ref"),
        Some(Cap::Val) => out.extend_from_slice(b" val"),
        Some(Cap::Box) => out.extend_from_slice(b" box"),
        Some(Cap::Tag) => out.extend_from_slice(b" tag"),
        None => Ok(()),
    }
}

/// The keyword of a local or a field, with a space after it.
pub fn push_local(out: &mut Vec<u8>, fixed: bool) -> Result<(), AllocError>
    ensures { OnOk result (out.new.items ≡ out.old.items ++ (word_text (local_word fixed) ++ 32 ∷ [])) }
{
    if fixed {
        out.extend_from_slice(b"let ")
    } else {
        out.extend_from_slice(b"var ")
    }
}

// `^`, if it is written.
fn push_hat(out: &mut Vec<u8>, hat: bool) -> Result<(), AllocError>
    ensures { OnOk result (out.new.items ≡ out.old.items ++ parts.hat hat) }
{
    if hat {
        out.push(b'^')?;
    }
    Ok(())
}

/// A type.
pub fn push_type(out: &mut Vec<u8>, ty: &TypeRef) -> Result<(), AllocError>
    ensures { OnOk result (out.new.items ≡ out.old.items ++ text.printed_type_ref ty.now) }
{
    out.extend_from_slice(ty.name.text.as_slice())?;
    push_cap(out, ty.cap)?;
    push_hat(out, ty.hat)
}

/// A type with its `:`, if one is written.
pub fn push_typed(out: &mut Vec<u8>, ty: &Option<TypeRef>) -> Result<(), AllocError>
    ensures { OnOk result (out.new.items ≡ out.old.items ++ text.printed_type ty.now) }
{
    match ty {
        Some(r) => {
            out.extend_from_slice(b": ")?;
            push_type(out, r)
        }
        None => Ok(()),
    }
}

/// The spelling of an operator.
pub fn op_text(op: Op) -> &'static [u8]
    ensures { result.now ≡ text.op_text op }
{
    match op {
        Op::Add => b"+",
        Op::Sub => b"-",
        Op::Mul => b"*",
        Op::Div => b"/",
        Op::Rem => b"%",
        Op::Eq => b"==",
        Op::Ne => b"!=",
        Op::Lt => b"<",
        Op::Le => b"<=",
        Op::Gt => b">",
        Op::Ge => b">=",
        Op::And => b"and",
        Op::Or => b"or",
        Op::Xor => b"xor",
        Op::Is => b"is",
        Op::Isnt => b"isnt",
    }
}

/// What separates two parts, unless the first part comes next.
pub fn push_between(out: &mut Vec<u8>, first: bool, between: &[u8]) -> Result<(), AllocError>
    ensures { OnOk result (out.new.items ≡ out.old.items ++ (if first then [] else between.now)) }
{
    if first {
        Ok(())
    } else {
        out.extend_from_slice(between)
    }
}
