//! The laws of names and nodes, and worked examples of both.
//!
//! Each function has an empty body: its contract is the law.
ghost use Rattle.std.specs.Prelude.{◌≡◌, ◌∷◌, [], ℕ, List, codes, true};
ghost use Rattle.std.specs.Cmp.{IsTotalOrder};
ghost use Rattle.std.specs.declared.cmp.Ordering.TheVariants.{Equal, Greater, Less};
ghost use Rattle.ul_base.specs.Names.{is_name, name_of, normal_form, name_above, name_cmp, IsNormalName, IsPlain};
ghost use Rattle.ul_base.specs.Examples.{node_at};
ghost use Rattle.ul_base.specs.Nodes.{node_cmp};
ghost use Rattle.ul_base.specs.declared.node.Node.{Node};

/// The normal form of a name is a name, and its own normal form, so that a name's text reads as that name; and it is
/// digits, lower-case letters and `-` alone, and never empty.
#[tactic(auto, using(crate::proofs::Names::form_is_name, crate::proofs::Names::same_form, crate::proofs::Names::name_reads_itself))]
pub fn normal_forms()
    ensures is_name { (text : List ℕ) → is_name text ≡ true → is_name (normal_form text) ≡ true }
    ensures same { (text : List ℕ) → normal_form (normal_form text) ≡ normal_form text }
    ensures reads { (text name : List ℕ) → name_of text ≡ Some name → name_of name ≡ Some name }
    ensures plain { (name : List ℕ) → name_of name ≡ Some name → IsPlain name }
{}

/// Above each name there is a greater one.
#[tactic(auto, using(crate::proofs::NameAbove::above_is_name, crate::proofs::NameAbove::name_below))]
pub fn names_above()
    ensures is_name { (name : List ℕ) → IsNormalName name → IsNormalName (name_above name) }
    ensures greater { (name : List ℕ) → name_cmp name (name_above name) ≡ Less }
{}

/// The order of nodes is total, and nodes that are level in it are equal.
#[tactic(auto, using(crate::proofs::Nodes::node_cmp_same))]
pub fn node_order()
    ensures total { IsTotalOrder node_cmp }
    ensures same { (a b : Node) → node_cmp a b ≡ Equal → a ≡ b }
{}

/// Worked examples of normal forms, of PEP 503.
#[tactic(auto, unfolding(crate::specs::Names::name_of, crate::specs::Names::is_name, crate::specs::Names::normal_form))]
pub fn name_examples()
    ensures lower_case { name_of (codes "Web_App") ≡ Some (codes "web-app") }
    ensures dot { name_of (codes "A.B") ≡ Some (codes "a-b") }
    ensures normal { name_of (codes "a-b") ≡ Some (codes "a-b") }
    ensures run { name_of (codes "a__b") ≡ Some (codes "a-b") }
    ensures mixed_run { name_of (codes "a-._b") ≡ Some (codes "a-b") }
    ensures two_words { name_of (codes "Zope.Interface") ≡ Some (codes "zope-interface") }
    ensures digit { name_of (codes "7") ≡ Some (codes "7") }
{}

/// Worked examples of texts that are no names, of PEP 508.
#[tactic(auto, unfolding(crate::specs::Names::name_of, crate::specs::Names::is_name))]
pub fn no_name_examples()
    ensures empty { name_of [] ≡ None }
    ensures separator_first { name_of (codes "-a") ≡ None }
    ensures separator_last { name_of (codes "a-") ≡ None }
    ensures space { name_of (codes "a b") ≡ None }
    ensures separator_alone { name_of (codes "_") ≡ None }
    // "é" in UTF-8, behind an `a`
    ensures not_ascii { name_of (97 ∷ 195 ∷ 169 ∷ []) ≡ None }
{}

/// Worked examples of the order of nodes: the name decides, then the base comes before its extras, then the extra.
pub fn node_examples()
    ensures base_first { node_cmp (node_at (codes "a") None) (node_at (codes "a") (Some (codes "x"))) ≡ Less }
    ensures extras { node_cmp (node_at (codes "a") (Some (codes "x"))) (node_at (codes "a") (Some (codes "y"))) ≡ Less }
    ensures name_first { node_cmp (node_at (codes "a") (Some (codes "y"))) (node_at (codes "b") None) ≡ Less }
    ensures prefix { node_cmp (node_at (codes "a") None) (node_at (codes "a-b") None) ≡ Less }
    ensures turned { node_cmp (node_at (codes "b") None) (node_at (codes "a") (Some (codes "x"))) ≡ Greater }
    ensures level { node_cmp (node_at (codes "a") (Some (codes "x"))) (node_at (codes "a") (Some (codes "x"))) ≡ Equal }
{}
