//! What never changes in a reduction of trees.

ghost use Rattle.std.specs.Prelude.{◌≡◌, ◌≤◌, IfOk, length, map, string_bytes};
ghost use Rattle.std.specs.Str.{chars};
ghost use Rattle.grammar_tree.specs.Checked.{IsChecked};
ghost use Rattle.grammar_tree.specs.Lexes.{PlacedToken};
ghost use Rattle.grammar_tree.specs.Faults.{IsWellFormed};
ghost use Rattle.lexer.specs.Tokens.{HasTokens, token_of};
ghost use Rattle.normal_form.specs.NormalOf.{normal_of};
ghost use Rattle.normal_form.specs.declared.normal.Sym.TheVariants.{Rule};
ghost use Rattle.syntax_tree.specs.Trees.{kinds_of};
ghost use Rattle.syntax_tree.specs.Nodes.{whole};
ghost use Rattle.reduce_step.specs.Limits.{text_limit};
ghost use Rattle.reduce_trees_mode.specs.Input.{IsInput};
ghost use Rattle.reduce_trees_mode.specs.inner.FormedProp.{well_formed_prop};
ghost use Rattle.reduce_trees_mode.specs.InputOf.{input_of};
ghost use Rattle.reduce_trees.specs.inner.Parts.{BelongTogether, together_prop};

use crate::start_text::StartText;
use compat_table::Compat;
use faults::Memory;
use keep_guard::{Guard, Relation};
use lexer::{Lexer, Tokens};
use reduce_trees_mode::parts_join;
use syntax_tree::Tree;
use token_print::tokens_are_found;

/// What never changes in a reduction of trees: the start's text with its pieces and the lexer of its
/// grammar, its tokens and their tree, which symbols fit which slots, which candidates are admitted, and
/// whether the squeezed text of the whole tree is tried before the rounds.
#[derive(Drop)]
pub struct TreeParts<F: Relation> {
    pub(crate) start: StartText,
    pub(crate) tokens: Tokens,
    pub(crate) compat: Compat,
    pub(crate) tree: Tree,
    pub(crate) guard: Guard<F>,
    pub(crate) squeezes: bool,
    ghost formed: { IsWellFormed start.grammar.grammar start.grammar.start } by { well_formed_prop start.grammar.grammar start.grammar.start },
    ghost together: { BelongTogether (input_of start.grammar formed tree start.bytes tokens.items.items (F.admits guard) squeezes) compat } by { together_prop
        (input_of start.grammar formed tree start.bytes tokens.items.items (F.admits guard) squeezes) compat },
}

/// What a reduction is about.
pub trait HasInput {
    ghost use Rattle.reduce_trees_mode.specs.Input.{TreeInput};

    /// The input that it is made of.
    ghost input: { Self → TreeInput };
}

impl<F: Relation> HasInput for TreeParts<F> {
    ghost input = { λ p. input_of p.start.grammar p.formed p.tree p.start.bytes p.tokens.items.items (F.admits p.guard) p.squeezes };
}

impl<F: Relation + Drop> TreeParts<F> {
    /// The parts of a reduction of a start, of at most 1,048,576 bytes. The start is cut into its pieces.
    pub fn new(
        start: String,
        tokens: Tokens,
        lexer: Lexer,
        compat: Compat,
        tree: Tree,
        guard: Guard<F>,
        squeezes: bool,
    ) -> Result<TreeParts<F>, Memory>
        requires checked { IsChecked lexer }
        requires short { length (string_bytes start) ≤ text_limit }
        requires tokens { HasTokens lexer.grammar (chars (string_bytes start)) (map token_of tokens.items.items) }
        requires form { tree.form ≡ normal_of lexer }
        requires symbol { tree.start ≡ Rule tree.form.start }
        requires kinds { kinds_of (whole tree) ≡ map (λ (t : PlacedToken). t.kind) (map token_of tokens.items.items) }
        requires compat { compat ≡ tree.form }
        ensures { IfOk result (λ parts. (formed : IsWellFormed lexer.grammar lexer.start)
            → ⟦<TreeParts<F> as HasInput>⟧.input parts ≡ input_of lexer formed tree (string_bytes start) tokens.items.items (F.admits guard) squeezes) }
    {
        tokens_are_found();
        let start = StartText::new(start, lexer)?;
        Ok(TreeParts {
            start,
            tokens,
            compat,
            tree,
            guard,
            squeezes,
        })
    }
}

impl<F: Relation> TreeParts<F> {
    /// The start's text.
    pub fn start(&self) -> &str
        ensures { result.now ≡ (⟦<TreeParts<F> as HasInput>⟧.input self.now).start }
    {
        self.start.text()
    }

    /// Its tokens.
    pub fn tokens(&self) -> &Tokens
        ensures { map token_of result.now.items.items ≡ (⟦<TreeParts<F> as HasInput>⟧.input self.now).tokens }
    {
        &self.tokens
    }

    /// The lexer of the grammar.
    pub fn lexer(&self) -> &Lexer
        ensures { result.now ≡ (⟦<TreeParts<F> as HasInput>⟧.input self.now).grammar }
    {
        self.start.lexer()
    }

    /// What says which candidates are admitted.
    pub fn guard(&self) -> &Guard<F>
        ensures { F.admits result.now ≡ (⟦<TreeParts<F> as HasInput>⟧.input self.now).admits }
    {
        &self.guard
    }

    /// The parts are those of an input, whose start has at most 1,048,576 bytes: a caller calls this so
    /// that its proof knows.
    pub fn is_input(&self)
        ensures is { IsInput (⟦<TreeParts<F> as HasInput>⟧.input self.now) }
        ensures short { length (⟦<TreeParts<F> as HasInput>⟧.input self.now).start ≤ text_limit }
    {
        parts_join();
        let _nodes = self.tree.nodes();
        let _text = self.start.text();
    }
}
