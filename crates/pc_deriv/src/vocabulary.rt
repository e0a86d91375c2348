//! The names of versions, rules, capabilities and forms.
ghost use Rattle.std.specs.Prelude.{◌≡◌, ℕ, List, option_map};
ghost use Rattle.pc_caps.specs.Words as words;
ghost use Rattle.pc_deriv.specs.Text as names;
ghost use Rattle.pc_deriv.specs.Reading as reading;

use crate::version::Version;
use pc_ann::Rule;
use pc_caps::{Cap, Form, cap_name, form_name};

const VERSIONS: [Version; 2] = [Version::One, Version::Two];

const RULES: [Rule; 31] = [
    Rule::Number,
    Rule::Truth,
    Rule::Text,
    Rule::Prim,
    Rule::This,
    Rule::Local,
    Rule::Consume,
    Rule::Get,
    Rule::GetOwn,
    Rule::Put,
    Rule::PutOwn,
    Rule::Define,
    Rule::Assign,
    Rule::New,
    Rule::Spawn,
    Rule::Call,
    Rule::CallRecover,
    Rule::Send,
    Rule::Builtin,
    Rule::Arith,
    Rule::Compare,
    Rule::Equal,
    Rule::Join,
    Rule::Logic,
    Rule::Lazy,
    Rule::Identity,
    Rule::Seq,
    Rule::If,
    Rule::While,
    Rule::Recover,
    Rule::Body,
];

// The most frequent ones come first, since they are tried in order.
const CAPS: [Cap; 6] = [Cap::Ref, Cap::Val, Cap::Tag, Cap::Iso, Cap::Box, Cap::Trn];

const FORMS: [Form; 8] = [
    Form::Val,
    Form::Ref,
    Form::Tag,
    Form::Iso,
    Form::IsoE,
    Form::Box,
    Form::Trn,
    Form::TrnE,
];

/// The name of a version in the first line.
pub fn version_name(version: Version) -> &'static str
    ensures { result.now ≡ names.version_name version }
{
    match version {
        Version::One => "1",
        Version::Two => "2",
    }
}

/// The name of a rule in the text.
pub fn rule_name(rule: Rule) -> &'static str
    ensures { result.now ≡ names.rule_name rule }
{
    match rule {
        Rule::Number => "number",
        Rule::Truth => "truth",
        Rule::Text => "text",
        Rule::Prim => "prim",
        Rule::This => "this",
        Rule::Local => "local",
        Rule::Consume => "consume",
        Rule::Get => "get",
        Rule::GetOwn => "getown",
        Rule::Put => "put",
        Rule::PutOwn => "putown",
        Rule::Define => "define",
        Rule::Assign => "assign",
        Rule::New => "new",
        Rule::Spawn => "spawn",
        Rule::Call => "call",
        Rule::CallRecover => "callrecover",
        Rule::Send => "send",
        Rule::Builtin => "builtin",
        Rule::Arith => "arith",
        Rule::Compare => "compare",
        Rule::Equal => "equal",
        Rule::Join => "join",
        Rule::Logic => "logic",
        Rule::Lazy => "lazy",
        Rule::Identity => "identity",
        Rule::Seq => "seq",
        Rule::If => "if",
        Rule::While => "while",
        Rule::Recover => "recover",
        Rule::Body => "body",
    }
}

// Values with a name in the text.
trait Named: Copy {
    // The bytes of the name.
    ghost spelling: { Self → List ℕ };

    fn name(self) -> &'static str
        ensures { result.now ≡ spelling self };
}

impl Named for Version {
    ghost spelling = { names.version_name };

    fn name(self) -> &'static str {
        version_name(self)
    }
}

impl Named for Rule {
    ghost spelling = { names.rule_name };

    fn name(self) -> &'static str {
        rule_name(self)
    }
}

impl Named for Cap {
    ghost spelling = { words.cap_name };

    fn name(self) -> &'static str {
        cap_name(self)
    }
}

impl Named for Form {
    ghost spelling = { words.form_name };

    fn name(self) -> &'static str {
        form_name(self)
    }
}

/// What follows these bytes.
#[tactic(auto, unfolding(crate::specs::Reading::after_bytes))]
pub fn after<'a>(text: &'a [u8], word: &[u8]) -> Option<&'a [u8]>
    ensures { option_map (λ r. r.now) result ≡ reading.after_bytes word.now text.now }
{
    if text.starts_with(word) {
        Some(&text[word.len()..])
    } else {
        None
    }
}

/// What follows a word and the byte that ends it.
#[tactic(auto, unfolding(crate::specs::Reading::after_word))]
fn after_word<'a>(text: &'a [u8], word: &str, end: u8) -> Option<&'a [u8]>
    ensures { option_map (λ r. r.now) result ≡ reading.after_word word.now end text.now }
{
    let rest = after(text, word.as_bytes())?;
    after(rest, &[end])
}

// The first of these whose name, followed by the byte that ends it, is at the start, and what follows.
#[tactic(auto, using(crate::proofs::NameSteps::named_here, crate::proofs::NameSteps::named_on))]
fn first_named<'a, T: Named>(things: &[T], end: u8, text: &'a [u8]) -> Option<(T, &'a [u8])>
    ensures { option_map (λ r. (r.0, r.1.now)) result ≡ reading.read_named T.spelling end things.now text.now }
{
    for thing in things {
        if let Some(rest) = after_word(text, thing.name(), end) {
            return Some((*thing, rest));
        }
    }
    None
}

/// The version whose name and a blank are at the start of the text, and what follows.
#[tactic(auto, unfolding(crate::specs::Reading::version_at))]
pub fn version_at(text: &[u8]) -> Option<(Version, &[u8])>
    ensures { option_map (λ r. (r.0, r.1.now)) result ≡ reading.version_at text.now }
{
    first_named(&VERSIONS, b' ', text)
}

/// The rule whose name and a blank are at the start of the text, and what follows. Only names that begin with the first
/// byte of the text are tried.
pub fn rule_at(text: &[u8]) -> Option<(Rule, &[u8])>
    ensures { option_map (λ r. (r.0, r.1.now)) result ≡ reading.rule_at text.now }
{
    if text.is_empty() {
        return first_named(&RULES, b' ', text);
    }
    match text[0] {
        b'a' => first_named(&[Rule::Assign, Rule::Arith], b' ', text),
        b'b' => first_named(&[Rule::Builtin, Rule::Body], b' ', text),
        b'c' => first_named(
            &[Rule::Consume, Rule::Call, Rule::CallRecover, Rule::Compare],
            b' ',
            text,
        ),
        b'd' => first_named(&[Rule::Define], b' ', text),
        b'e' => first_named(&[Rule::Equal], b' ', text),
        b'g' => first_named(&[Rule::Get, Rule::GetOwn], b' ', text),
        b'i' => first_named(&[Rule::Identity, Rule::If], b' ', text),
        b'j' => first_named(&[Rule::Join], b' ', text),
        b'l' => first_named(&[Rule::Local, Rule::Logic, Rule::Lazy], b' ', text),
        b'n' => first_named(&[Rule::Number, Rule::New], b' ', text),
        b'p' => first_named(&[Rule::Prim, Rule::Put, Rule::PutOwn], b' ', text),
        b'r' => first_named(&[Rule::Recover], b' ', text),
        b's' => first_named(&[Rule::Spawn, Rule::Send, Rule::Seq], b' ', text),
        b't' => first_named(&[Rule::Truth, Rule::Text, Rule::This], b' ', text),
        b'w' => first_named(&[Rule::While], b' ', text),
        _ => first_named(&RULES, b' ', text),
    }
}

/// The capability whose name and a line end are at the start of the text, and what follows.
#[tactic(auto, unfolding(crate::specs::Reading::cap_at))]
pub fn cap_at(text: &[u8]) -> Option<(Cap, &[u8])>
    ensures { option_map (λ r. (r.0, r.1.now)) result ≡ reading.cap_at text.now }
{
    first_named(&CAPS, b'\n', text)
}

/// The form whose name and a blank are at the start of the text, and what follows.
#[tactic(auto, unfolding(crate::specs::Reading::form_at))]
pub fn form_at(text: &[u8]) -> Option<(Form, &[u8])>
    ensures { option_map (λ r. (r.0, r.1.now)) result ≡ reading.form_at text.now }
{
    first_named(&FORMS, b' ', text)
}
