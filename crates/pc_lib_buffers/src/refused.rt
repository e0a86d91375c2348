//! Where a source is refused: its stages are repeated up to the first fault and its span.
ghost use Rattle.std.specs.Prelude.{◌≡◌, ◌≤◌, IfErr, IfOk, length};
ghost use Rattle.pc_core_relation.specs.Files.{IsCoreOf};
ghost use Rattle.pc_elab.specs.Cores.{IsSpelledFile};
ghost use Rattle.pc_expr.specs.Gives.{EndsWithEnd};
ghost use Rattle.pc_lex.specs.Pieces.{bytes_limit};
ghost use Rattle.pc_base.specs.Lists.{Ascends};
ghost use Rattle.pc_names.specs.Faults.{IsNotMemory};
ghost use Rattle.pc_text_order.specs.Laws.{starts};
ghost use Rattle.pc_tree.specs.View.{file_view};
ghost use Rattle.pc_lib_buffers.specs.Refused as spec;
ghost use Rattle.pc_lib_buffers.specs.Refused.{AreRefusedAt, IsCoreRefusedAt, IsFileFault, IsFileRefusedAt, IsRefusedAt};
ghost use Rattle.pc_lib_buffers.specs.Spans.{IsLexSpan, IsNameSpan, IsTokenSpan, token_span};

use crate::core_spans::core_span;
use pc_base::{List, Span};
use pc_check::check;
use pc_core::Core;
use pc_elab::elaborate;
use pc_lex::{LexFault, lex};
use pc_names::{NameFault, collect};
use pc_parse::{ParseFault, file};
use pc_refusals::SOURCE_LIMIT;
use pc_text_order::tokens_are_in_order;
use pc_token::Token;
use pc_tree::File;
use std::alloc::{AllocError, Global};

// The byte at this offset, or nothing at the text's end.
fn byte_span(bytes: &[u8], at: u32) -> Span
    requires { length bytes.now ≤ bytes_limit }
    ensures { result ≡ spec.byte_span bytes.now at }
{
    let end = (at as usize + 1).min(bytes.len());
    Span {
        start: at,
        end: end as u32,
    }
}

// Where a text without tokens is refused.
fn lex_span(bytes: &[u8], fault: LexFault) -> Result<Option<Span>, AllocError>
    requires { length bytes.now ≤ bytes_limit }
    ensures { IfOk result (IsLexSpan bytes.now fault) }
{
    match fault {
        LexFault::BadByte(at) => Ok(Some(byte_span(bytes, at))),
        LexFault::Unclosed(at) => Ok(Some(byte_span(bytes, at))),
        LexFault::BadNumber(at) => Ok(Some(byte_span(bytes, at))),
        LexFault::BadEscape(at) => Ok(Some(byte_span(bytes, at))),
        LexFault::TooMany(at) => Ok(Some(byte_span(bytes, at))),
        LexFault::Memory => Err(AllocError),
    }
}

// The token that begins at this byte.
fn span_at(tokens: &[Token], at: u32) -> Option<Span>
    ensures { result ≡ token_span tokens.now at }
{
    match tokens.iter().find(|token| token.span.start == at) {
        Some(token) => Some(token.span),
        None => None,
    }
}

// Where tokens without a tree are refused.
fn fault_span(tokens: &[Token], fault: ParseFault) -> Result<Option<Span>, AllocError>
    ensures { IfOk result (IsTokenSpan tokens.now fault) }
{
    match fault {
        ParseFault::Unexpected(at) => Ok(span_at(tokens, at)),
        ParseFault::TooDeep(at) => Ok(span_at(tokens, at)),
        ParseFault::Memory => Err(AllocError),
    }
}

// Where a file with a fault of its names is refused.
fn name_span(fault: NameFault) -> Result<Option<Span>, AllocError>
    ensures { IfOk result (IsNameSpan fault) }
{
    match fault {
        NameFault::Double(span) => Ok(Some(span)),
        NameFault::Unknown(span) => Ok(Some(span)),
        NameFault::NoMain => Ok(None),
        NameFault::BadMain(span) => Ok(Some(span)),
        NameFault::Cycle(span) => Ok(Some(span)),
        NameFault::TooMany(_, span) => Ok(Some(span)),
        NameFault::Memory => Err(AllocError),
    }
}

// The core of a tree, or the fault because of which it has none.
fn core_of(alloc: Global, file: &File) -> Result<Core, NameFault>
    requires { IsSpelledFile (file_view file.now) }
    ensures core { IfOk result (IsCoreOf (file_view file.now)) }
    ensures fault { IfErr result (λ f. IsNotMemory f → IsFileFault (file_view file.now) f) }
{
    let names = collect(alloc, file)?;
    elaborate(alloc, file, &names)
}

// Where a core is refused.
fn refused_core(alloc: Global, core: &Core) -> Result<Option<Span>, AllocError>
    ensures { IfOk result (IsCoreRefusedAt core.now) }
{
    match check(alloc, core) {
        Ok(_) => Ok(None),
        Err(fault) => core_span(core, &fault),
    }
}

// Where a file is refused. It is let go before its core is checked.
fn refused_file(alloc: Global, file: File) -> Result<Option<Span>, AllocError>
    requires { IsSpelledFile (file_view file) }
    ensures { IfOk result (IsFileRefusedAt (file_view file)) }
{
    match core_of(alloc, &file) {
        Ok(core) => {
            drop(file);
            refused_core(alloc, &core)
        }
        Err(fault) => name_span(fault),
    }
}

// Where tokens in the order of a text are refused. They are let go before a core is made of their tree.
fn refused_tokens(alloc: Global, tokens: List<Token>) -> Result<Option<Span>, AllocError>
    requires ends { EndsWithEnd tokens }
    requires ascend { Ascends (starts tokens) }
    ensures { IfOk result (AreRefusedAt tokens) }
{
    match file(alloc, tokens.as_slice()) {
        Ok(tree) => {
            drop(tokens);
            refused_file(alloc, tree)
        }
        Err(fault) => fault_span(tokens.as_slice(), fault),
    }
}

// Where a text within the limit is refused.
fn refused_text(alloc: Global, text: &[u8]) -> Result<Option<Span>, AllocError>
    requires { length text.now ≤ bytes_limit }
    ensures { IfOk result (IsRefusedAt text.now) }
{
    tokens_are_in_order();
    match lex(alloc, text) {
        Ok(tokens) => refused_tokens(alloc, tokens),
        Err(fault) => lex_span(text, fault),
    }
}

/// The bytes at which a source is refused, if it is refused at any.
pub fn refused_span(alloc: Global, source: &[u8]) -> Result<Option<Span>, AllocError>
    ensures { IfOk result (IsRefusedAt source.now) }
{
    if source.len() > SOURCE_LIMIT as usize {
        return Ok(None);
    }
    refused_text(alloc, source)
}
