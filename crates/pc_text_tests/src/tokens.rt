//! The tokens of small texts. Texts that have none, and their faults, are in `rows/tokens.py`.
use pc_base::List;
use pc_lex::{LexFault, Token, TokenKind, lex};
use std::alloc::Global;

/// The result for a text within the limit of bytes.
pub fn answer(alloc: Global, text: &[u8]) -> Result<List<Token>, LexFault> {
    if text.len() > 1_048_576 {
        return Err(LexFault::Memory);
    }
    lex(alloc, text)
}

/// What a token is, without what it carries.
fn label(kind: &TokenKind) -> &'static str {
    match kind {
        TokenKind::Name(_) => "name",
        TokenKind::TypeName(_) => "type name",
        TokenKind::Word(_) => "word",
        TokenKind::Number(_) => "number",
        TokenKind::Text(_) => "text",
        TokenKind::Doc => "doc",
        TokenKind::Sign(_) => "sign",
        TokenKind::End => "end",
    }
}

/// A token: what it is, where it begins and ends, and whether it is first on its line.
type Row = (&'static str, u32, u32, bool);

fn are_rows(tokens: &[Token], rows: &[Row]) -> bool {
    for at in 0..rows.len() {
        match tokens.get(at) {
            Some(token)
                if (
                    label(&token.kind),
                    token.span.start,
                    token.span.end,
                    token.first,
                ) == rows[at] => {}
            _ => return false,
        }
    }
    tokens.len() == rows.len()
}

fn has_rows(alloc: Global, text: &[u8], rows: &[Row]) -> bool {
    match answer(alloc, text) {
        Ok(tokens) => are_rows(tokens.as_slice(), rows),
        Err(_) => false,
    }
}

const TEXTS: [(&[u8], &[Row]); 11] = [
    (b"", &[("end", 0, 0, true)]),
    (b" \t\n", &[("end", 3, 3, true)]),
    (b"// end", &[("end", 6, 6, true)]),
    (
        b"a' b_1'' _c _T1' Type",
        &[
            ("name", 0, 2, true),
            ("name", 3, 8, false),
            ("name", 9, 11, false),
            ("type name", 12, 16, false),
            ("type name", 17, 21, false),
            ("end", 21, 21, false),
        ],
    ),
    (
        b"if iff if' If a'b",
        &[
            ("word", 0, 2, true),
            ("name", 3, 6, false),
            ("name", 7, 10, false),
            ("type name", 11, 13, false),
            ("name", 14, 16, false),
            ("name", 16, 17, false),
            ("end", 17, 17, false),
        ],
    ),
    (
        b"<=>= =>== !=<",
        &[
            ("sign", 0, 2, true),
            ("sign", 2, 4, false),
            ("sign", 5, 7, false),
            ("sign", 7, 9, false),
            ("sign", 10, 12, false),
            ("sign", 12, 13, false),
            ("end", 13, 13, false),
        ],
    ),
    (
        b"a // x\nb /* \n */ c /* y */ d\r\ne",
        &[
            ("name", 0, 1, true),
            ("name", 7, 8, true),
            ("name", 17, 18, true),
            ("name", 27, 28, false),
            ("name", 30, 31, true),
            ("end", 31, 31, false),
        ],
    ),
    (
        b"\"x\ny\" z",
        &[
            ("text", 0, 5, true),
            ("name", 6, 7, false),
            ("end", 7, 7, false),
        ],
    ),
    (
        b"/* 1 /* 2 */ 3 */ c // /* \n* /",
        &[
            ("name", 18, 19, true),
            ("sign", 27, 28, true),
            ("sign", 29, 30, false),
            ("end", 30, 30, false),
        ],
    ),
    (
        b"\"\"\"a\"b\\\"\"\"\"\" 0x1F 1_0 \"\"",
        &[
            ("doc", 0, 10, true),
            ("text", 10, 12, false),
            ("number", 13, 17, false),
            ("number", 18, 21, false),
            ("text", 22, 24, false),
            ("end", 24, 24, false),
        ],
    ),
    (
        b"x.create(1) /\n",
        &[
            ("name", 0, 1, true),
            ("sign", 1, 2, false),
            ("name", 2, 8, false),
            ("sign", 8, 9, false),
            ("number", 9, 10, false),
            ("sign", 10, 11, false),
            ("sign", 12, 13, false),
            ("end", 14, 14, true),
        ],
    ),
];

// The place of the first of these texts that has other tokens.
fn wrong_tokens(alloc: Global, texts: &[(&[u8], &[Row])]) -> Option<usize> {
    for at in 0..texts.len() {
        if !has_rows(alloc, texts[at].0, texts[at].1) {
            return Some(at);
        }
    }
    None
}

#[test]
fn tokens(rt: HostRuntime) {
    assert_eq!(rt; wrong_tokens(rt.alloc(), &TEXTS), None);
}
