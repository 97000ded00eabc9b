//! Reading the grammar that a command line names.

ghost use Rattle.std.specs.Prelude.{◌≡◌, ◌≤◌, [], ◌∷◌, IfErr, IfOk, OnOk, length, option_map};
ghost use Rattle.std.specs.Str.{chars};
ghost use Rattle.edge_io.specs.Files.{SameFiles};
ghost use Rattle.grammar_load.specs.PairMessage.{pair_grammar_fault_text};
ghost use Rattle.command_words.specs.Lines.{grammar_read};
ghost use Rattle.command_grammar.specs.Grammar.{GrammarCalls, GrammarFails, GrammarRead, SpellsTheGrammar, start_name};
ghost use Rattle.command_grammar.specs.Texts.{GrammarTexts, grammar_paths};
ghost use Rattle.command_grammar.specs.inner.Grammar.{IsFaultRefusal, LexerCalls, LexerFails};
ghost use Rattle.command_ends.specs.Status.{IsGrammarRefusal};
ghost use Rattle.command_ends.specs.World.{IsQuiet, WasRead, WereRead, grammar_limit, seen};

use command_ends::{GRAMMAR_LIMIT, NamedFile, Refusal, read_file};
use command_words::NamedGrammar;
use edge_io::Files;
use faults::Memory;
use grammar_load::{GrammarFault, PairGrammarFault, checked_grammar, checked_pair};
use grammar_tree::Checked;
use std::alloc::Global;

/// The name of the start rule, where one is given.
fn named_start<'a>(grammar: NamedGrammar<'a>) -> Option<&'a str>
    ensures { option_map (λ name. chars name.now) result ≡ start_name (grammar_read grammar.entry) }
{
    grammar.start
}

/// The grammar that a text spells, checked, with this start rule, or its first parser rule.
fn grammar_of_text(
    alloc: Global,
    grammar: NamedGrammar<'_>,
    text: &[u8],
) -> Result<Checked, Refusal>
    requires { length text.now ≤ grammar_limit }
    ensures ok { IfOk result (SpellsTheGrammar (grammar_read grammar.entry) (GrammarTexts.one text.now)) }
    ensures refused { IfErr result (λ refusal. IsFaultRefusal (grammar_read grammar.entry) (GrammarTexts.one text.now) refusal) }
{
    match checked_grammar(alloc, text, named_start(grammar)) {
        Ok(checked) => Ok(checked),
        Err(GrammarFault::Memory(memory)) => Err(Refusal::Memory(memory)),
        Err(fault) => Err(Refusal::of_grammar(alloc, &fault)),
    }
}

/// The refusal of a lexer grammar and a parser grammar that have this fault; `Memory` where memory
/// runs out.
fn pair_refusal(alloc: Global, fault: &PairGrammarFault) -> Refusal
    ensures { IsGrammarRefusal (pair_grammar_fault_text fault.now) result }
{
    match format!(in alloc; "perses: grammar: {fault}\n") {
        Ok(line) => Refusal::Grammar(line),
        Err(refused) => Refusal::Memory(Memory::from(refused)),
    }
}

/// The grammar that the text of a lexer grammar and that of its parser grammar spell, checked, with
/// this start rule, or its first parser rule.
fn grammar_of_pair(
    alloc: Global,
    grammar: NamedGrammar<'_>,
    lexer: &[u8],
    parser: &[u8],
) -> Result<Checked, Refusal>
    requires lexer { length lexer.now ≤ grammar_limit }
    requires parser { length parser.now ≤ grammar_limit }
    ensures ok { IfOk result (SpellsTheGrammar (grammar_read grammar.entry) (GrammarTexts.pair lexer.now parser.now)) }
    ensures refused { IfErr result (λ refusal. IsFaultRefusal (grammar_read grammar.entry) (GrammarTexts.pair lexer.now parser.now) refusal) }
{
    match checked_pair(alloc, lexer, parser, named_start(grammar)) {
        Ok(checked) => Ok(checked),
        Err(PairGrammarFault::Memory(memory)) => Err(Refusal::Memory(memory)),
        Err(fault) => Err(pair_refusal(alloc, &fault)),
    }
}

/// The grammar that the lexer grammar in a file and this text of its parser grammar spell, checked,
/// with this start rule, or its first parser rule.
fn grammar_with_lexer<F: Files>(
    alloc: Global,
    grammar: NamedGrammar<'_>,
    lexer: &str,
    parser: &[u8],
    files: &mut F,
) -> Result<Checked, Refusal>
    requires { length parser.now ≤ grammar_limit }
    ensures grammar { IfOk result (λ checked. WasRead grammar_limit (F.content files.old lexer.now)
        (λ text. SpellsTheGrammar (grammar_read grammar.entry) (GrammarTexts.pair text parser.now) checked)) }
    ensures quiet { OnOk result (IsQuiet (seen F.content F.faults files.old) (seen F.content F.faults files.new)) }
    ensures refused { IfErr result (λ refusal. LexerFails (grammar_read grammar.entry) lexer.now parser.now (seen F.content F.faults files.old)
        (seen F.content F.faults files.new) refusal) }
    ensures read { OnOk result (WereRead (lexer.now ∷ []) (F.calls files.old) (F.calls files.new)) }
    ensures calls { IfErr result (LexerCalls lexer.now (F.calls files.old) (F.calls files.new)) }
    ensures same { SameFiles (F.content files.old) (F.content files.new) }
{
    let text = read_file(files, lexer, GRAMMAR_LIMIT, NamedFile::Lexer)?;
    grammar_of_pair(alloc, grammar, &text, parser)
}

/// The grammar in a file, or in those of a lexer and a parser, checked, with this start rule, or its
/// first parser rule. The lexer's file is read after the other.
pub fn grammar_of_files<F: Files>(
    alloc: Global,
    grammar: NamedGrammar<'_>,
    files: &mut F,
) -> Result<Checked, Refusal>
    ensures grammar { IfOk result (λ checked. GrammarRead (grammar_read grammar.entry) (seen F.content F.faults files.old) checked) }
    ensures quiet { OnOk result (IsQuiet (seen F.content F.faults files.old) (seen F.content F.faults files.new)) }
    ensures refused { IfErr result (λ refusal. GrammarFails (grammar_read grammar.entry) (seen F.content F.faults files.old)
        (seen F.content F.faults files.new) refusal) }
    ensures read { OnOk result (WereRead (grammar_paths (grammar_read grammar.entry)) (F.calls files.old) (F.calls files.new)) }
    ensures calls { IfErr result (GrammarCalls (grammar_read grammar.entry) (F.calls files.old) (F.calls files.new)) }
    ensures same { SameFiles (F.content files.old) (F.content files.new) }
{
    let text = read_file(files, grammar.path, GRAMMAR_LIMIT, NamedFile::Grammar)?;
    match grammar.lexer {
        None => grammar_of_text(alloc, grammar, &text),
        Some(lexer) => grammar_with_lexer(alloc, grammar, lexer, &text, files),
    }
}
