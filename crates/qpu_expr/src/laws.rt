ghost use Rattle.qpu_expr.specs.Trees.{ReadsTrees, ReadsOnlyTrees};
ghost use Rattle.qpu_expr.specs.Rules.{ExpandsByRules};

/// A law: what a tree of the grammar of expressions writes is read as one expression, with the worth of
/// the tree.
#[tactic(auto, using(crate::proofs::TreeLaw::reads_trees))]
pub fn reads_trees()
    ensures { ReadsTrees }
{}

/// A law: what is read as an expression is what some tree of the grammar writes, with the tree's worth.
#[tactic(auto, using(crate::proofs::OnlyTreeLaw::only_trees))]
pub fn reads_only_trees()
    ensures { ReadsOnlyTrees }
{}

/// A law: a text is expanded exactly where the language's rules leave something of its lines, and then
/// to the lines and labels that they leave.
pub fn expands_by_rules()
    ensures { ExpandsByRules }
{}
