//! The grammar, as definitions: which tokens spell which tree, how each rule is read from the left, and which texts are scripts; and
//! the theorem over them.
//!
//! Promised: which tokens spell which tree is what the rules read, tokens spell at most one tree, and a text is at most one script.
//! Each function stands for a theorem, which is its contract. It stands on tokens and syntax trees.
#![tactic(auto)]

mod words;

ghost use Rattle.std.specs.Prelude.{◌≡◌, ◌↔◌, ℕ, List};
ghost use Rattle.ct_value.specs.declared.codes.ScriptCode.{ScriptCode};
ghost use Rattle.sql_syntax.specs.Tree.{Script};
ghost use Rattle.sql_grammar.specs.ReadsScripts.{answered, read_text, refused};
ghost use Rattle.sql_grammar.specs.Scripts.{IsScript, TextRefusal};

pub use words::{NegatableWord, PrimaryWord, RestWord, StatementWord};

/// A text is at most one script.
pub fn one_script_each()
    ensures { (text : List ℕ) (x y : Script) → IsScript text x → IsScript text y → x ≡ y }
{}

/// A text is refused in at most one way, and then it is no script.
pub fn one_refusal_each()
    ensures one { (text : List ℕ) (c d : ScriptCode) (m n : ℕ) → TextRefusal text c m → TextRefusal text d n → (c ≡ d) × (m ≡ n) }
    ensures no_script { (text : List ℕ) (x : Script) (code : ScriptCode) (number : ℕ) → IsScript text x → ¬ (TextRefusal text code number) }
{}

/// A text is read as the statements that it spells.
pub fn text_is_script()
    ensures { (text : List ℕ) (x : Script) → (read_text text ≡ answered x.statements) ↔ IsScript text x }
{}

/// A text is read as a refusal where it has one, at the first statement that is refused.
pub fn text_is_refused()
    ensures { (text : List ℕ) (code : ScriptCode) (number : ℕ) → (read_text text ≡ refused code number) ↔ TextRefusal text code number }
{}
