//! The definitions of the subject, and what is proved of them. No code here runs: each function stands for a theorem, which is its
//! contract, so the crate passes only with its proof.
#![tactic(auto)]

ghost use Rattle.std.specs.Prelude.{◌≡◌, ℕ, suc, ◌<◌, ◌↔◌, Bool, true, false, List};
ghost use Rattle.grammar.specs.Productions.{Production, Book, Sound, ProperBook};
ghost use Rattle.grammar.specs.Semiring.{Ops, Semiring};
ghost use Rattle.grammar.specs.Binarised.{Right, Has};
ghost use Rattle.grammar.specs.Nullable.{nullable_after};
ghost use Rattle.grammar.specs.Chains.{ChainStep, UnitChain};
ghost use Rattle.grammar.specs.Strict.{proper};
ghost use Rattle.grammar.specs.Weighings.{costs, Keeps};
ghost use Rattle.grammar.specs.Cells.{tree_weight};
ghost use Rattle.grammar.specs.Readings.{Reading, Reads};
ghost use Rattle.grammar.specs.Nodes.{Node, nodes, tree_nodes};
ghost use Rattle.grammar.specs.Binarise.{binarised, binarise};
ghost use Rattle.grammar.specs.Weights.{reading_weight, binarised_weight, total_of};
ghost use Rattle.grammar.specs.Promises.{Grammars, Rewriting, OneMore, Formed, Bijection, Rounds, ChosenRule, TheChosenChain, TheStrictList, StrictLanguage, Equations, ByPlace, YesCells, CellSets, PlainSum, WholeSum, Counted, Least, Carried, NodeList, TakesExactly, Answered, TableAfter};
ghost use Rattle.grammar.specs.Examples.{Shown};

/// Values with operations, whatever laws these obey.
pub trait Valued: Sized {
    ghost ops: { Ops Self };
}

/// Values with operations that form a commutative semiring.
pub trait Lawful: Valued {
    ghost semiring: { Semiring Self.ops };
}

/// The written productions, the binarised and the strict rules of a book each make a grammar.
pub fn are_grammars()
    ensures { (W : Book) → Sound W → Grammars W }
{}

/// Rewriting and derivation trees derive the same: by the productions as they are written, and by the binarised rules.
pub fn rewrites<E>()
    ensures { (W : Book) (fits : E → ℕ → Bool) → Rewriting W fits }
{}

/// A production within the bounds leaves a book sound, and so does its strike, after which there are no more strict rules than before.
pub fn offered()
    ensures { (W : Book) (p : Production) → OneMore W p }
{}

/// Binarised rules are few, made of the symbols and the patterns, and those of one symbol stand by number.
pub fn well_formed()
    ensures { (W : Book) → Sound W → Formed W }
{}

/// Without productions of nothing and of a single head there are no empty and no unit rules.
pub fn stays_proper()
    ensures { (W : Book) → ProperBook W → (x n : ℕ) (b : Right) → Has (binarised W) x n b → proper b ≡ true }
{}

/// Readings and derivation trees of binarised rules are one to one.
pub fn one_to_one<E>()
    ensures { (W : Book) → Sound W → (fits : E → ℕ → Bool) (x : ℕ) (w : List E) → x < 32 → Bijection W fits x w }
{}

/// A reading and its binarised form have the same weight.
pub fn same_weight<V: Lawful, E>()
    ensures { (W : Book) → Sound W → (fits : E → ℕ → Bool) (x : ℕ) (r : Reading) (w : List E)
        → Reads W fits x r w → tree_weight V.ops (binarised_weight W V.ops) (binarise W r) ≡ reading_weight W V.ops r }
{}

/// What each round adds to the nullable symbols.
pub fn found_in_rounds()
    ensures { (W : Book) → Sound W → (x : ℕ) → Rounds (binarised W) x }
{}

/// The chosen rule of a nullable symbol is the lowest-numbered of the round that brought it in, and only that one.
pub fn nullable_chosen()
    ensures { (W : Book) → Sound W → (k x : ℕ)
        → nullable_after (binarised W) k x ≡ false → nullable_after (binarised W) (suc k) x ≡ true → ChosenRule (binarised W) k x }
{}

/// The chosen chain has the fewest steps, and begins with the lowest that begins such a chain; no other chain does all that.
pub fn chain_chosen()
    ensures { (W : Book) → Sound W → (x y : ℕ) (c : List ChainStep)
        → y < (binarised W).symbols → UnitChain (binarised W) x c y → TheChosenChain (binarised W) x y }
{}

/// Which the strict rules are, and their order; no other list has both.
pub fn strict_listed()
    ensures { (W : Book) → Sound W → TheStrictList (binarised W) }
{}

/// The strict rules are in strict Chomsky form, and their language is the book's without the empty trace.
pub fn strict_form<E>()
    ensures { (W : Book) → Sound W → (fits : E → ℕ → Bool) → StrictLanguage W fits }
{}

/// The two equations of a chart's cells, for every weighing.
pub fn cell_equations<V: Lawful, E>()
    ensures { (W : Book) (fits : E → ℕ → Bool) (x : ℕ) → Equations W V.ops fits x }
{}

/// The same equations by place in the events of a chart.
pub fn span_equations<V: Lawful, E>()
    ensures { (W : Book) (fits : E → ℕ → Bool) (ev : List E) (x i : ℕ) → ByPlace W V.ops fits ev x i }
{}

/// A yes/no cell says yes exactly if the strict rules derive its events from its symbol.
pub fn yes_chart<E>()
    ensures { (W : Book) → Sound W → (fits : E → ℕ → Bool) (x : ℕ) (w : List E) → YesCells W fits x w }
{}

/// The yes/no cells are the sets of the Cocke-Younger-Kasami chart of the strict grammar.
pub fn symbol_sets<E>()
    ensures { (W : Book) → Sound W → (fits : E → ℕ → Bool) (x : ℕ) → CellSets W fits x }
{}

/// The total is the sum over the plain readings, for every weighing.
pub fn sums_plain<V: Lawful, E>()
    ensures { (W : Book) → Sound W → (fits : E → ℕ → Bool) (w : List E) → PlainSum W V.ops fits w }
{}

/// Without productions of nothing and of a single head the total is the sum over all readings.
pub fn sums_all<V: Lawful, E>()
    ensures { (W : Book) → Sound W → ProperBook W → (fits : E → ℕ → Bool) (w : List E) → WholeSum W V.ops fits w }
{}

/// Yes means a reading, and the count is the number of plain readings, held at the limit.
pub fn none_exact<E>()
    ensures { (W : Book) → Sound W → (fits : E → ℕ → Bool) (w : List E) → Counted W fits 4294967295 w }
{}

/// The least cost is the least of the plain readings' costs, held at the limit.
pub fn least_exact<E>()
    ensures { (W : Book) → Sound W → (fits : E → ℕ → Bool) (w : List E) (m : ℕ)
        → (total_of W (costs 4294967295) fits w ≡ m) ↔ Least W fits 4294967295 w m }
{}

/// A map that keeps the operations keeps every cell and every total.
pub fn carries<V: Valued, U: Valued, E>()
    ensures { (f : V → U) → Keeps V.ops U.ops f → (W : Book) → Sound W → (fits : E → ℕ → Bool) → Carried V.ops U.ops f W fits }
{}

/// The nodes of a reading stand over their events, and tell the reading.
pub fn told<E>()
    ensures { (W : Book) (fits : E → ℕ → Bool) (x : ℕ) (r : Reading) (w : List E) → Reads W fits x r w → NodeList W fits x r w }
{}

/// The nodes of a reading can be read off its binarised form.
pub fn same_nodes<E>()
    ensures { (W : Book) → Sound W → (fits : E → ℕ → Bool) (x : ℕ) (r : Reading) (w : List E)
        → Reads W fits x r w → tree_nodes 0 (binarise W r) ≡ nodes 0 r }
{}

/// Where there is a reading exactly one is taken, and it is plain.
pub fn takes_one<E>()
    ensures { (W : Book) → Sound W → (fits : E → ℕ → Bool) (w : List E) → TakesExactly W fits w }
{}

/// The call for the reading has exactly one answer, and leaves exactly one table.
pub fn answers_once<E>()
    ensures { (W : Book) → Sound W → (fits : E → ℕ → Bool) (w : List E) (t : List Node) → Answered W fits w t }
{}

/// What a node table holds after nodes were written into it, and what is answered.
pub fn tables_filled()
    ensures { (ks t : List Node) → TableAfter ks t }
{}

/// What the definitions say of five small books.
pub fn examples_shown()
    ensures { Shown }
{}
