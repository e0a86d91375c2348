//! The lines about the rules, each with its hint.
ghost use Rattle.std.specs.Prelude.{◌≡◌, ◌++◌, flat_map, OnOk};
ghost use Rattle.std.specs.List.{list_any};
ghost use Rattle.pc_explain.specs.RuleLines as spec;

use pc_ann::Rule;
use pc_base::List;
use pc_explain_window::push_bytes;
use std::alloc::AllocError;

/// A rule that is looked at and does not hold: the sentence of its condition that fails, and what to do about it, if
/// anything.
#[derive(Drop)]
pub struct Reported {
    pub rule: Rule,
    pub sentence: List<u8>,
    pub hint: List<u8>,
}

// The name of a rule.
fn rule_word(rule: Rule) -> &'static [u8]
    ensures { result.now ≡ spec.rule_word rule }
{
    match rule {
        Rule::Number => b"number",
        Rule::Truth => b"truth",
        Rule::Text => b"text",
        Rule::Prim => b"prim",
        Rule::This => b"this",
        Rule::Local => b"local",
        Rule::Consume => b"consume",
        Rule::Get => b"get",
        Rule::GetOwn => b"getown",
        Rule::Put => b"put",
        Rule::PutOwn => b"putown",
        Rule::Define => b"define",
        Rule::Assign => b"assign",
        Rule::New => b"new",
        Rule::Spawn => b"spawn",
        Rule::Call => b"call",
        Rule::CallRecover => b"callrecover",
        Rule::Send => b"send",
        Rule::Builtin => b"builtin",
        Rule::Arith => b"arith",
        Rule::Compare => b"compare",
        Rule::Equal => b"equal",
        Rule::Join => b"join",
        Rule::Logic => b"logic",
        Rule::Lazy => b"lazy",
        Rule::Identity => b"identity",
        Rule::Seq => b"seq",
        Rule::If => b"if",
        Rule::While => b"while",
        Rule::Recover => b"recover",
        Rule::Body => b"body",
    }
}

// Whether the rule fails with this sentence.
fn says(sentence: &[u8], reported: &Reported) -> bool
    ensures { result ≡ spec.has_sentence sentence.now reported.now }
{
    reported.sentence.as_slice() == sentence
}

// Whether one of the rules does.
fn one_says(sentence: &[u8], reported: &[Reported]) -> bool
    ensures { result ≡ list_any (spec.has_sentence sentence.now) reported.now }
{
    reported.iter().any(|one| says(sentence, one))
}

// Appends the name of a later rule, if it fails with this sentence.
#[tactic(auto, unfolding(crate::specs::RuleLines::more_name))]
fn push_more_name(out: &mut Vec<u8>, sentence: &[u8], reported: &Reported) -> Result<(), AllocError>
    ensures { OnOk result (out.new.items ≡ out.old.items ++ spec.more_name sentence.now reported.now) }
{
    if says(sentence, reported) {
        push_bytes(out, b", ")?;
        push_bytes(out, rule_word(reported.rule))?;
    }
    Ok(())
}

// Appends the names of the later rules that fail with this sentence.
fn push_more_names(out: &mut Vec<u8>, sentence: &[u8], later: &[Reported]) -> Result<(), AllocError>
    ensures { OnOk result (out.new.items ≡ out.old.items ++ flat_map (spec.more_name sentence.now) later.now) }
{
    'later: for reported in later {
        push_more_name(out, sentence, reported)?;
    }
    Ok(())
}

// `rule` or `rules`.
fn number_word(several: bool) -> &'static [u8]
    ensures { result.now ≡ spec.number_word several }
{
    if several { b"rules " } else { b"rule " }
}

// Appends the names of the rules that fail with the sentence of the first.
#[tactic(auto, unfolding(crate::specs::RuleLines::names_of))]
fn push_names(out: &mut Vec<u8>, reported: &Reported, later: &[Reported]) -> Result<(), AllocError>
    ensures { OnOk result (out.new.items ≡ out.old.items ++ spec.names_of reported.now later.now) }
{
    let sentence = reported.sentence.as_slice();
    push_bytes(out, number_word(one_says(sentence, later)))?;
    push_bytes(out, rule_word(reported.rule))?;
    push_more_names(out, sentence, later)
}

// Appends the line of a hint, if there is one.
#[tactic(auto, unfolding(crate::specs::RuleLines::hint_line))]
fn push_hint_line(out: &mut Vec<u8>, hint: &[u8]) -> Result<(), AllocError>
    ensures { OnOk result (out.new.items ≡ out.old.items ++ spec.hint_line hint.now) }
{
    match hint {
        [] => Ok(()),
        [_, ..] => {
            push_bytes(out, b"hint: ")?;
            push_bytes(out, hint)?;
            push_bytes(out, b"\n")
        }
    }
}

// Appends the line about the first of these rules, and its hint.
#[tactic(auto, unfolding(crate::specs::RuleLines::rule_line))]
fn push_rule_line(
    out: &mut Vec<u8>,
    reported: &Reported,
    later: &[Reported],
) -> Result<(), AllocError>
    ensures { OnOk result (out.new.items ≡ out.old.items ++ spec.rule_line reported.now later.now) }
{
    push_names(out, reported, later)?;
    push_bytes(out, b": ")?;
    push_bytes(out, reported.sentence.as_slice())?;
    push_bytes(out, b"\n")?;
    push_hint_line(out, reported.hint.as_slice())
}

// Appends the line about a rule, unless an earlier one has its sentence.
fn push_line(
    out: &mut Vec<u8>,
    earlier: &[Reported],
    reported: &Reported,
    later: &[Reported],
) -> Result<(), AllocError>
    ensures { OnOk result (out.new.items ≡ out.old.items ++ spec.line_after earlier.now reported.now later.now) }
{
    if one_says(reported.sentence.as_slice(), earlier) {
        return Ok(());
    }
    push_rule_line(out, reported, later)
}

/// Appends the lines about the rules, in order. Rules that fail with the same sentence share a line.
#[tactic(auto, unfolding(crate::specs::RuleLines::rule_lines))]
pub(crate) fn push_rule_lines(out: &mut Vec<u8>, reported: &[Reported]) -> Result<(), AllocError>
    ensures { OnOk result (out.new.items ≡ out.old.items ++ spec.rule_lines reported.now) }
{
    for at in 0..reported.len() {
        push_line(out, &reported[..at], &reported[at], &reported[at + 1..])?;
    }
    Ok(())
}
