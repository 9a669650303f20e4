//! The options of the parser.

use rox_build::NoResolver;
use std::fmt;

/// The options of the parser.
///
/// ```
/// let mut options = ParsingOptions::default();
/// options.nodes_limit = 2;
/// let error = Document::parse_with_options(alloc, "<r><a/></r>", options).err();
/// assert!(rt; error == Some(Error::NodesLimitReached));
/// ```
#[derive(Clone, Copy, Drop)]
pub struct ParsingOptions<R = NoResolver> {
    /// Whether a document type declaration is allowed (XML 1.0 section 2.8). If it is not, a text with one gives
    /// `Error::DtdDetected`.
    pub allow_dtd: bool,
    /// The most nodes that a document may have, the root node included.
    pub nodes_limit: u32,
    /// The resolver of external entities (XML 1.0 section 4.2.2). Without one, each of them is left undeclared.
    pub entity_resolver: Option<R>,
    /// The key that distinguishes the nodes of this document from those of others. Nodes of documents with different keys are
    /// never equal, and are ordered by their keys.
    pub document_key: u64,
}

/// Prints the options. Of the resolver it prints only whether there is one, so that a resolver need not be `Debug`.
impl<R> fmt::Debug for ParsingOptions<R> {
    fn fmt<W: fmt::Write>(&self, f: &mut fmt::Formatter<W>) -> fmt::Result {
        let resolver = match self.entity_resolver {
            Some(_) => "Some(..)",
            None => "None",
        };
        f.debug_struct("ParsingOptions")
            .field("allow_dtd", &self.allow_dtd)
            .field("nodes_limit", &self.nodes_limit)
            .field("entity_resolver", &resolver)
            .field("document_key", &self.document_key)
            .finish()
    }
}

impl Default for ParsingOptions<NoResolver> {
    ghost use Rattle.std.specs.Prelude.{◌≡◌, None, false};

    ghost is_default = { λ o. (o.allow_dtd ≡ false) × (o.nodes_limit ≡ 4294967295) × (o.entity_resolver ≡ None) × (o.document_key ≡ 0) };

    /// Returns options without a document type declaration or a resolver, with at most 4,294,967,295 nodes and the key 0.
    fn default() -> ParsingOptions<NoResolver> {
        ParsingOptions {
            allow_dtd: false,
            nodes_limit: u32::MAX,
            entity_resolver: None,
            document_key: 0,
        }
    }
}

impl<R> ParsingOptions<R> {
    ghost use Rattle.std.specs.Prelude.{◌≡◌, Some, false};

    /// Returns the default options with this resolver. It is asked only if `allow_dtd` is set: by the premise `may` of
    /// `Document::parse_with_options`.
    ///
    /// ```
    /// let resolver = ResolveWith::new(|_public_id, _uri| Ok(Some("hello")));
    /// let mut options = ParsingOptions::with_resolver(resolver);
    /// options.allow_dtd = true;
    /// let text = "<!DOCTYPE r [<!ENTITY a SYSTEM 'a.xml'>]><r>&a;</r>";
    /// let document = Document::parse_with_options(alloc, text, options)?;
    /// assert!(rt; document.root_element().text() == Some("hello"));
    /// ```
    pub fn with_resolver(resolver: R) -> ParsingOptions<R>
        ensures resolver { result.entity_resolver ≡ Some resolver }
        ensures others { (result.allow_dtd ≡ false) × (result.nodes_limit ≡ 4294967295)
            × (result.document_key ≡ 0) }
    {
        ParsingOptions {
            allow_dtd: false,
            nodes_limit: u32::MAX,
            entity_resolver: Some(resolver),
            document_key: 0,
        }
    }
}
