//! The law of a library's tree.
ghost use Rattle.gs_grammar.specs.Lawful.{IsLawful};
ghost use Rattle.gs_libtree.specs.declared.tree.Node.{Node};
ghost use Rattle.gs_lib.specs.Library.{HasCause, IsLibraryOf};
ghost use Rattle.gs_lib.specs.declared.error.LibErr.{LibErr};

/// Each tree is that of one library, or has one cause of refusal other than want of memory, and never both.
pub fn each_tree_is_decided()
    ensures { (root : Node) → IsLawful LibErr.Mem (IsLibraryOf root) (HasCause root) }
{}
