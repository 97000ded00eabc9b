//! The types of grammars: each call once with ample memory, its answer compared.

use grammar_reader::read_grammar;
use grammar_tree::{CharSet, Grammar, Kind, KindSource, Memory, Rule, Text};
use std::alloc::Global;
use std::test::Fail;

/// Whether the set has the character before the range's end and at it, and not the one after it.
fn ends_at(set: &CharSet, inside: char, last: char, after: char) -> bool {
    set.contains(inside) && set.contains(last) && !set.contains(after)
}

/// Whether the set has the characters from `a` to `f`. A reversed range adds nothing.
fn is_a_to_f(set: &CharSet) -> bool {
    !set.contains('`') && set.contains('a') && ends_at(set, 'e', 'f', 'g') && !set.contains('y')
}

/// Whether a set of some ranges has those, and its copy does.
fn union_and_copy(alloc: Global) -> Result<(bool, bool), Memory> {
    let set = CharSet::new(alloc, &[('d', 'f'), ('z', 'x'), ('a', 'c'), ('b', 'e')])?;
    let copy = set.copy()?;
    Ok((is_a_to_f(&set), ends_at(&copy, 'a', 'f', 'g')))
}

#[test]
fn a_set_is_the_union_of_its_ranges(rt: HostRuntime) -> Result<(), Fail> {
    assert_eq!(rt; union_and_copy(rt.alloc())?, (true, true));
    Ok(())
}

/// Whether the set has the characters beside the surrogates, and none before or after these.
fn is_beside_surrogates(set: &CharSet) -> bool {
    !set.contains('\u{D7FD}')
        && set.contains('\u{D7FE}')
        && set.contains('\u{D7FF}')
        && ends_at(set, '\u{D7FF}', '\u{E000}', '\u{E001}')
}

#[test]
fn a_set_over_the_surrogates_has_the_characters_beside_them(rt: HostRuntime) -> Result<(), Fail> {
    let set = CharSet::new(rt.alloc(), &[('\u{D7FE}', '\u{E000}')])?;
    assert!(rt; is_beside_surrogates(&set));
    Ok(())
}

/// The letters and the digits.
fn letters_and_digits(alloc: Global) -> Result<CharSet, Memory> {
    let letters = CharSet::new(alloc, &[('a', 'z')])?;
    let digits = CharSet::new(alloc, &[('0', '9')])?;
    letters.union(&digits)
}

/// Whether the set ends with the digits and with the letters.
fn has_both(set: &CharSet) -> bool {
    ends_at(set, '0', '9', ':') && ends_at(set, 'a', 'z', '{')
}

/// Whether the set has what is before, between and after those.
fn has_others(set: &CharSet) -> bool {
    ends_at(set, '\0', '/', '0')
        && ends_at(set, ':', '`', 'a')
        && set.contains('{')
        && set.contains('\u{10FFFF}')
}

/// Whether a union has both, and its complement the rest.
fn union_and_complement(alloc: Global) -> Result<(bool, bool), Memory> {
    let both = letters_and_digits(alloc)?;
    let others = both.complement()?;
    Ok((has_both(&both), has_others(&others)))
}

#[test]
fn a_union_has_both_and_a_complement_the_rest(rt: HostRuntime) -> Result<(), Fail> {
    assert_eq!(rt; union_and_complement(rt.alloc())?, (true, true));
    Ok(())
}

/// Characters at the ends of all ranges, and one between.
const CHARACTERS: [char; 5] = ['\0', 'a', '\u{D7FF}', '\u{E000}', '\u{10FFFF}'];

/// How many of these the set has.
fn count_in(set: &CharSet) -> usize {
    CHARACTERS.iter().filter(|c| set.contains(**c)).count()
}

/// How many of these are among all characters, and in the complement of all.
fn all_and_none(alloc: Global) -> Result<(usize, usize), Memory> {
    let all = CharSet::new(alloc, &[])?.complement()?;
    let none = all.complement()?;
    Ok((count_in(&all), count_in(&none)))
}

#[test]
fn all_characters_have_no_complement(rt: HostRuntime) -> Result<(), Fail> {
    assert_eq!(rt; all_and_none(rt.alloc())?, (5, 0));
    Ok(())
}

/// A grammar with a rule of each kind.
const SMALL: &[u8] = b"grammar G; tokens {T} a : ~(T | 'x')* EOF ; A : 'x' [ab]*? 'b' -> skip ;";

/// Whether the rule's matches are gaps, how many alternatives it has, and how many terms the first.
fn shape(rule: &Rule) -> (bool, usize, usize) {
    match rule {
        Rule::Parser { alts, .. } => {
            let terms = alts.items.first().map_or(0, |alt| alt.items.len());
            (false, alts.items.len(), terms)
        }
        Rule::Lexer { gap, alts, .. } => {
            let terms = alts.items.first().map_or(0, |alt| alt.items.len());
            (*gap, alts.items.len(), terms)
        }
    }
}

/// Whether the grammar is named and shaped as the small one.
fn is_small(grammar: &Grammar) -> bool {
    grammar.name.as_str() == "G"
        && grammar.tokens.len() == 1
        && grammar.rules.len() == 2
        && shape(&grammar.rules[0]) == (false, 1, 2)
        && shape(&grammar.rules[1]) == (true, 1, 3)
}

/// A copy of the small grammar.
fn copied_grammar(alloc: Global) -> Result<Grammar, Fail> {
    let grammar = read_grammar(alloc, SMALL)?;
    Ok(grammar.copy(alloc)?)
}

#[test]
fn a_copy_has_the_same_rules(rt: HostRuntime) -> Result<(), Fail> {
    let copy = copied_grammar(rt.alloc())?;
    assert!(rt; is_small(&copy));
    Ok(())
}

/// Whether the copy of a kind has its name and its source.
fn is_copied_with_its_source(alloc: Global) -> Result<bool, Memory> {
    let kind = Kind {
        name: Text::new(alloc, "ID")?,
        gap: false,
        source: KindSource::Written(7),
    };
    let copy = kind.copy()?;
    Ok(copy.name.is(&kind.name) && copy.source == KindSource::Written(7))
}

#[test]
fn a_kind_is_copied_with_its_source(rt: HostRuntime) -> Result<(), Fail> {
    assert!(rt; is_copied_with_its_source(rt.alloc())?);
    Ok(())
}
