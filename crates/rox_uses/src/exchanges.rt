//! Elements put in the place of others.
//!
//! ```
//! use rox_uses::with_copy;
//!
//! let document = Document::parse(alloc, "<r>a<b x='1'>c</b><!-- --><d/></r>")?;
//! let b = document.root_element().first_element_child().expect(&rt, "an element");
//! let d = document.root_element().last_element_child().expect(&rt, "an element");
//! assert!(rt; b.is_self_contained());
//! assert!(rt; d.is_self_contained());
//! let text = with_copy(alloc, d, b)?;
//! assert!(rt; text.as_str() == "<r>a<b x='1'>c</b><!-- --><b x='1'>c</b></r>");
//! ```

ghost use Rattle.std.specs.Prelude.{◌≡◌, ℕ, true, List, IfOk, IfErr, string_bytes};
ghost use Rattle.rox_error.specs.declared.error.Error.TheVariants.{OutOfMemory};
ghost use Rattle.roxmltree.specs.Forest.{Forest};
ghost use Rattle.roxmltree.specs.Tree as grammar;
ghost use Rattle.roxmltree.specs.Exchange.{IsReparse, IsExchange};
ghost use Rattle.roxmltree.specs.SelfContained.{stands_alone};
ghost use Rattle.roxmltree.specs.Elements.{root_id};
ghost use Rattle.roxmltree.specs.NodeRef.{id_of, document_of, tree_of};

use rox_laws::exchanges::root_elements_stand_alone;
use roxmltree::{Error, Node};
use std::alloc::Global;

/// Returns the text of an element's document with a copy of another element in the element's place. Both may be in one document.
pub fn with_copy(alloc: Global, element: Node<'_, '_>, other: Node<'_, '_>) -> Result<String, Error>
    requires mine { stands_alone (document_of element) (id_of element) ≡ true }
    requires others { stands_alone (document_of other) (id_of other) ≡ true }
    ensures exchanged { IfOk result (λ text. (own : Forest grammar.Node) × (own_text : List ℕ)
        × IsReparse (tree_of other.entry) (document_of other.entry).text
        (id_of other.entry) own own_text
        × IsExchange (tree_of element.entry) (document_of element.entry).text
        (id_of element.entry) own own_text (root_id own) (string_bytes text)) }
    ensures memory { IfErr result (λ e. e ≡ OutOfMemory) }
{
    let copy = match other.reparse(alloc) {
        Ok(copy) => copy,
        Err(error) => return Err(error),
    };
    root_elements_stand_alone(&copy);
    match element.exchange(alloc, &copy) {
        Ok(text) => Ok(text),
        Err(_) => Err(Error::OutOfMemory),
    }
}
