//! The text of a normal form.

ghost use Rattle.std.specs.Prelude.{◌≡◌, ◌++◌, ◌<◌, ◌^◌, IfOk, OnOk, [], codes, encode_utf8_all, length, map, nat_eq, slice_get, string_bytes};
ghost use Rattle.std.specs.Option.{option_map_or};
ghost use Rattle.std.specs.List.{join_by};
ghost use Rattle.grammar_literal.specs.Literal.{content};
ghost use Rattle.grammar_tree.specs.GrammarView.{kind_of};
ghost use Rattle.normal_form_print.specs.Print.{body_text, but_text, kind_text, lines_from, numbered_kind_text, printed, set_text};
ghost use Rattle.normal_form_print.specs.inner.Printing.{kind_bytes, symbol_bytes};
ghost use Rattle.normal_form.specs.View.{alts_form, rule_form};

use faults::Memory;
use grammar_literal::PrintedLiteral;
use grammar_names::visible_kinds;
use grammar_tree::{Checked, Kind, KindSource, Text, counts_fit};
use normal_form::{Normal, NormalRule, Sym, rules_are_few};
use normal_form_sets::KindSets;
use std::alloc::Global;

/// Adds the literal of an implicit token, in quotes.
fn push_literal(text: &mut String, alloc: Global, literal: &Text) -> Result<(), Memory>
    ensures { OnOk result (string_bytes text.new ≡ string_bytes text.old ++ encode_utf8_all (codes "'" ++ (content literal.now ++ codes "'"))) }
{
    let printed = format!(in alloc; "{}", PrintedLiteral(literal))?;
    text.push_str(printed.as_str())?;
    Ok(())
}

fn push_text(text: &mut String, piece: &Text) -> Result<(), Memory>
    ensures { OnOk result (string_bytes text.new ≡ string_bytes text.old ++ encode_utf8_all piece.now) }
{
    text.push_str(piece.as_str())?;
    Ok(())
}

fn push_kind(text: &mut String, alloc: Global, kind: &Kind) -> Result<(), Memory>
    ensures { OnOk result (string_bytes text.new ≡ string_bytes text.old ++ encode_utf8_all (kind_text (kind_of kind.now))) }
{
    match kind.source {
        KindSource::Implicit => push_literal(text, alloc, &kind.name),
        KindSource::Written(_) => push_text(text, &kind.name),
        KindSource::Declared => push_text(text, &kind.name),
    }
}

/// Adds the text of the kind with this number.
fn push_numbered_kind(
    text: &mut String,
    alloc: Global,
    kinds: &[Kind],
    number: u32,
) -> Result<(), Memory>
    ensures { OnOk result (string_bytes text.new ≡ string_bytes text.old ++ encode_utf8_all (numbered_kind_text (map kind_of kinds.now) number)) }
{
    match kinds.get(number as usize) {
        Some(kind) => push_kind(text, alloc, kind),
        None => Ok(()),
    }
}

/// Adds the texts of these kinds, with `|` between them.
fn push_kinds(
    text: &mut String,
    alloc: Global,
    kinds: &[Kind],
    numbers: &[u32],
) -> Result<(), Memory>
    ensures { OnOk result (string_bytes text.new ≡ string_bytes text.old ++ join_by (kind_bytes (map kind_of kinds.now)) (codes "|") numbers.now) }
{
    if numbers.is_empty() {
        return Ok(());
    }
    push_numbered_kind(text, alloc, kinds, numbers[0])?;
    for number in &numbers[1..] {
        text.push_str("|")?;
        push_numbered_kind(text, alloc, kinds, *number)?;
    }
    Ok(())
}

/// Whether one kind alone is missing.
fn is_one(missing: &[u32]) -> bool
    ensures { result ≡ nat_eq (length missing.now) 1 }
{
    missing.len() == 1
}

/// Adds the text of a set that misses these kinds.
fn push_but(text: &mut String, alloc: Global, kinds: &[Kind], missing: &[u32]) -> Result<(), Memory>
    ensures { OnOk result (string_bytes text.new ≡ string_bytes text.old ++ but_text (kind_bytes (map kind_of kinds.now)) missing.now) }
{
    if missing.is_empty() {
        text.push_str(".")?;
        return Ok(());
    }
    if is_one(missing) {
        text.push_str("~")?;
        return push_numbered_kind(text, alloc, kinds, missing[0]);
    }
    text.push_str("~(")?;
    push_kinds(text, alloc, kinds, missing)?;
    text.push_str(")")?;
    Ok(())
}

/// The text of a set that misses these kinds.
fn set_text(alloc: Global, kinds: &[Kind], missing: &[u32]) -> Result<String, Memory>
    ensures { IfOk result (λ text. string_bytes text ≡ encode_utf8_all (but_text (numbered_kind_text (map kind_of kinds.now)) missing.now)) }
{
    let mut text = String::new(alloc);
    push_but(&mut text, alloc, kinds, missing)?;
    Ok(text)
}

/// The texts of the sets. It takes time linear in the texts where the sets are of these kinds.
fn set_texts(alloc: Global, kinds: &[Kind], sets: &KindSets) -> Result<Vec<String>, Memory>
    requires { length kinds.now < 2 ^ 32 }
    ensures { IfOk result (λ texts. map string_bytes texts.items ≡ map (λ set. encode_utf8_all (set_text (map kind_of kinds.now) set)) sets.now.sets) }
{
    let visible = visible_kinds(alloc, kinds)?;
    let missing = sets.missing_of(alloc, &visible)?;
    let mut texts = Vec::new(alloc);
    for list in &missing {
        texts.push(set_text(alloc, kinds, list)?)?;
    }
    Ok(texts)
}

/// The texts of symbols.
#[derive(Drop)]
struct Symbols<'a> {
    kinds: &'a [Kind],
    names: &'a [Text],
    sets: Vec<String>,
}

/// Adds the text of the symbol.
fn push_symbol(
    text: &mut String,
    alloc: Global,
    symbols: &Symbols<'_>,
    symbol: Sym,
) -> Result<(), Memory>
    ensures { OnOk result (string_bytes text.new ≡ string_bytes text.old ++ symbol_bytes symbols.now symbol) }
{
    match symbol {
        Sym::Kind(kind) => push_numbered_kind(text, alloc, symbols.kinds, kind),
        Sym::Set(set) => push_set(text, &symbols.sets, set),
        Sym::Rule(rule) => push_name(text, symbols.names, rule),
    }
}

/// Adds the text of the set with this number.
fn push_set(text: &mut String, sets: &[String], number: u32) -> Result<(), Memory>
    ensures { OnOk result (string_bytes text.new ≡ string_bytes text.old ++ option_map_or string_bytes (slice_get sets.now number) []) }
{
    match sets.get(number as usize) {
        Some(set) => {
            text.push_str(set.as_str())?;
            Ok(())
        }
        None => Ok(()),
    }
}

/// Adds the name of the rule with this number.
fn push_name(text: &mut String, names: &[Text], number: u32) -> Result<(), Memory>
    ensures { OnOk result (string_bytes text.new ≡ string_bytes text.old ++ option_map_or encode_utf8_all (slice_get names.now number) []) }
{
    match names.get(number as usize) {
        Some(name) => push_text(text, name),
        None => Ok(()),
    }
}

/// Adds the symbols of an alternative, with a space between them.
fn push_alt(
    text: &mut String,
    alloc: Global,
    symbols: &Symbols<'_>,
    alt: &[Sym],
) -> Result<(), Memory>
    ensures { OnOk result (string_bytes text.new ≡ string_bytes text.old ++ join_by (symbol_bytes symbols.now) (codes " ") alt.now) }
{
    if alt.is_empty() {
        return Ok(());
    }
    push_symbol(text, alloc, symbols, alt[0])?;
    for symbol in &alt[1..] {
        text.push_str(" ")?;
        push_symbol(text, alloc, symbols, *symbol)?;
    }
    Ok(())
}

/// Adds the alternatives, with ` | ` between them.
fn push_alts(
    text: &mut String,
    alloc: Global,
    symbols: &Symbols<'_>,
    alts: &[Vec<Sym>],
) -> Result<(), Memory>
    ensures { OnOk result (string_bytes text.new ≡ string_bytes text.old ++ join_by (join_by (symbol_bytes symbols.now) (codes " ")) (codes " | ")
        (alts_form alts.now)) }
{
    if alts.is_empty() {
        return Ok(());
    }
    push_alt(text, alloc, symbols, &alts[0])?;
    for alt in &alts[1..] {
        text.push_str(" | ")?;
        push_alt(text, alloc, symbols, alt)?;
    }
    Ok(())
}

/// Adds a symbol directly followed by a suffix.
fn push_suffixed(
    text: &mut String,
    alloc: Global,
    symbols: &Symbols<'_>,
    symbol: Sym,
    suffix: &str,
) -> Result<(), Memory>
    ensures { OnOk result (string_bytes text.new ≡ string_bytes text.old ++ (symbol_bytes symbols.now symbol ++ suffix.now)) }
{
    push_symbol(text, alloc, symbols, symbol)?;
    text.push_str(suffix)?;
    Ok(())
}

fn push_body(
    text: &mut String,
    alloc: Global,
    symbols: &Symbols<'_>,
    rule: &NormalRule,
) -> Result<(), Memory>
    ensures { OnOk result (string_bytes text.new ≡ string_bytes text.old ++ body_text (symbol_bytes symbols.now) (rule_form rule.now)) }
{
    match rule {
        NormalRule::Regular(alts) => push_alts(text, alloc, symbols, alts),
        NormalRule::Star(symbol) => push_suffixed(text, alloc, symbols, *symbol, "*"),
        NormalRule::Plus(symbol) => push_suffixed(text, alloc, symbols, *symbol, "+"),
        NormalRule::Opt(symbol) => push_suffixed(text, alloc, symbols, *symbol, "?"),
    }
}

/// Adds the lines of the rules.
fn push_lines(
    text: &mut String,
    alloc: Global,
    symbols: &Symbols<'_>,
    rules: &[NormalRule],
) -> Result<(), Memory>
    requires { length rules.now < 2 ^ 32 }
    ensures { OnOk result (string_bytes text.new ≡ string_bytes text.old ++ lines_from (symbol_bytes symbols.now) 0 (map rule_form rules.now)) }
{
    for (number, rule) in rules.iter().enumerate() {
        push_symbol(text, alloc, symbols, Sym::Rule(number as u32))?;
        text.push_str(" : ")?;
        push_body(text, alloc, symbols, rule)?;
        text.push_str(" ;\n")?;
    }
    Ok(())
}

/// The printed normal form, as bytes: one line for each rule, in the order of their numbers. Where
/// the form is that of the checked grammar, it takes time linear in the print and in the grammar.
pub fn normal_text(alloc: Global, checked: &Checked, normal: &Normal) -> Result<Vec<u8>, Memory>
    ensures { IfOk result (λ bytes. bytes.items ≡ encode_utf8_all (printed checked.now.kinds normal.now)) }
{
    checked.is_checked();
    counts_fit();
    normal.is_normal();
    rules_are_few();
    let symbols = Symbols {
        kinds: checked.kinds(),
        names: normal.names(),
        sets: set_texts(alloc, checked.kinds(), normal.sets())?,
    };
    let mut text = String::new(alloc);
    push_lines(&mut text, alloc, &symbols, normal.rules())?;
    Ok(text.into_bytes())
}
