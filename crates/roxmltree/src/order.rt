//! The comparison of nodes: by the keys of their documents, and inside one document by document order.

use crate::nodes::Node;
use std::cmp::Ordering;
use std::hash::{Hash, Hasher};

impl PartialEq for Node<'_, '_> {
    ghost use Rattle.roxmltree.specs.NodeRef.{id_of, document_of};
    ghost use Rattle.std.specs.Prelude.{◌==◌};
    ghost use Rattle.std.specs.Ordering.{on, eq_of_both};
    ghost use Rattle.std.proofs.Common.{rules};
    ghost use Rattle.std.specs.Cmp.Rules.{comparing};

    ghost eq = { eq_of_both (on (λ n. (document_of n).key) ◌==◌) (on id_of ◌==◌) };

    ghost laws = { Prim.search (comparing, rules) };

    fn eq(&self, other: &Self) -> bool {
        self.document.key() == other.document.key() && self.id == other.id
    }
}

impl Eq for Node<'_, '_> {
    ghost use Rattle.roxmltree.specs.NodeRef.{id_of, document_of};
    ghost use Rattle.std.proofs.Common.{rules};
    ghost use Rattle.std.specs.Cmp.Rules.{comparing};

    ghost laws = { Prim.search (comparing, rules) };
}

impl Ord for Node<'_, '_> {
    ghost use Rattle.roxmltree.specs.NodeRef.{id_of, document_of};
    ghost use Rattle.std.specs.Ordering.{on, then_cmp, nat_cmp};
    ghost use Rattle.std.proofs.Common.{rules};
    ghost use Rattle.std.specs.Cmp.Rules.{comparing};

    ghost cmp = { then_cmp (on (λ n. (document_of n).key) nat_cmp) (on id_of nat_cmp) };

    ghost total = { Prim.search (comparing, rules) };

    ghost matches_partial_cmp = { Prim.search (comparing, rules) };

    ghost matches_eq = { Prim.search (comparing, rules) };

    fn cmp(&self, other: &Self) -> Ordering {
        self.document
            .key()
            .cmp(&other.document.key())
            .then(self.id.cmp(&other.id))
    }
}

impl PartialOrd for Node<'_, '_> {
    ghost use Rattle.roxmltree.specs.NodeRef.{id_of, document_of};
    ghost use Rattle.std.specs.Ordering.{on, then_cmp, nat_cmp, as_partial_cmp};
    ghost use Rattle.std.proofs.Common.{rules};
    ghost use Rattle.std.specs.Cmp.{partial_order_from_own_ties};
    ghost use Rattle.std.specs.Cmp.Rules.{comparing};

    ghost partial_cmp = { as_partial_cmp (then_cmp (on (λ n. (document_of n).key) nat_cmp) (on id_of nat_cmp)) };

    ghost laws = { partial_order_from_own_ties (Prim.search (comparing, rules)) (Prim.search (comparing, rules)) };

    fn partial_cmp(&self, other: &Self) -> Option<Ordering> {
        Some(self.cmp(other))
    }
}

impl Hash for Node<'_, '_> {
    ghost use Rattle.roxmltree.specs.NodeRef.{id_of, document_of};
    ghost use Rattle.std.specs.Prelude.{◌++◌};
    ghost use Rattle.std.specs.Hash as fed;
    ghost use Rattle.std.proofs.Common.{rules};
    ghost use Rattle.std.specs.Cmp.Rules.{hashing};

    ghost hash_input = { λ n. fed.u64 (document_of n).key ++ fed.u32 (id_of n) };

    ghost respects_eq = { Prim.search (hashing, rules) };

    fn hash<H: Hasher>(&self, state: &mut H) {
        self.document.key().hash(state);
        self.id.0.hash(state);
    }
}
