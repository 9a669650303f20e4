//! Resolvers of external entities (XML 1.0 section 4.2.2). A declaration such as `<!ENTITY a SYSTEM "a.xml">` gives only the name
//! of a text that is elsewhere. The parser does not fetch that text: it asks a resolver for it, at the declaration. The
//! resolver's answer is all that the parser knows of the text.
//!
//! There are three kinds of answer. A text is the replacement text of the name. No text leaves the name undeclared. A message
//! refuses the document.
//!
//! Resolvers: the trait, one that resolves nothing, and one that asks a closure.

ghost use Rattle.std.specs.Prelude.{◌≡◌, Ok, None};
ghost use Rattle.rox_grammar.specs.Doctype.{Request};
ghost use Rattle.rox_prolog.specs.Requests.{Reply, Allows, MayAsk, request_of, reply_of};

use std::marker::PhantomData;

/// A resolver of external entities.
///
/// Its answers live as long as the text that is parsed: a tree may hold slices of both. So a resolver lends texts that were read
/// before, and reads none of its own.
///
/// ```
/// #[derive(Drop)]
/// struct Always<'input>(&'input str);
///
/// impl<'input> EntityResolver<'input> for Always<'input> {
///     ghost use Rattle.std.specs.Prelude.{◌≡◌, Ok, Some};
///
///     ghost can_resolve = { λ self. Unit {0} };
///
///     ghost allows = { λ self request reply. reply ≡ Ok (Some self.0.now) };
///
///     fn resolve(&self, pub_id: Option<&str>, uri: &str) -> Result<Option<&'input str>, String> {
///         Ok(Some(self.0))
///     }
/// }
///
/// let mut options = ParsingOptions::with_resolver(Always("hello"));
/// options.allow_dtd = true;
/// let text = "<!DOCTYPE r [<!ENTITY a SYSTEM 'a.xml'>]><r>&a;</r>";
/// let document = Document::parse_with_options(alloc, text, options)?;
/// assert!(rt; document.root_element().text() == Some("hello"));
/// ```
pub trait EntityResolver<'input> {
    /// When the resolver may be asked.
    ghost can_resolve: { Self → Type 0 };

    /// What the resolver may reply to a request. Two calls may reply differently, if this allows both replies.
    ghost allows: { Self → Request → Reply → Type 0 };

    /// Returns the text of an external entity, by its public identifier, if it has one, and its system identifier. Both are as
    /// they are written. Without a text the entity is not declared; a message refuses the document.
    fn resolve(&self, pub_id: Option<&str>, uri: &str) -> Result<Option<&'input str>, String>
        requires { can_resolve self.now }
        ensures { allows self.now (request_of pub_id.entry uri.entry) (reply_of result) };
}

/// Resolves nothing: each external entity is left undeclared.
///
/// ```
/// let mut options = ParsingOptions::with_resolver(NoResolver);
/// options.allow_dtd = true;
/// let text = "<!DOCTYPE r [<!ENTITY a SYSTEM 'a.xml'>]><r>&a;</r>";
/// // `a` is not declared
/// assert!(rt; Document::parse_with_options(alloc, text, options).is_err());
/// ```
#[derive(Clone, Copy, Debug, Default, Drop)]
pub struct NoResolver;

impl<'input> EntityResolver<'input> for NoResolver {
    ghost can_resolve = { λ self. Unit {0} };

    ghost allows = { λ self request reply. reply ≡ Ok None };

    fn resolve(&self, pub_id: Option<&str>, uri: &str) -> Result<Option<&'input str>, String> {
        Ok(None)
    }
}

/// Resolves as a closure does. It may be asked if the closure may be called with any arguments, as each closure without a
/// `requires` may.
///
/// ```
/// let resolver = ResolveWith::new(|_public_id, uri| match uri {
///     "a.xml" => Ok(Some("hello")),
///     _ => Ok(None),
/// });
/// let mut options = ParsingOptions::with_resolver(resolver);
/// options.allow_dtd = true;
/// let text = "<!DOCTYPE r [<!ENTITY a SYSTEM 'a.xml'>]><r>&a;</r>";
/// let document = Document::parse_with_options(alloc, text, options)?;
/// assert!(rt; document.root_element().text() == Some("hello"));
/// ```
#[derive(Clone, Copy, Drop)]
pub struct ResolveWith<
    'input,
    F: Fn(Option<&str>, &str) -> Result<Option<&'input str>, String> + Drop,
> {
    /// The closure that is asked, by the public identifier, if there is one, and the system identifier.
    pub by: F,
    /// Takes no room: it binds the type to the lifetime of the closure's answers.
    pub answers: PhantomData<&'input str>,
}

impl<'input, F: Fn(Option<&str>, &str) -> Result<Option<&'input str>, String> + Drop> ResolveWith<
    'input,
    F,
> {
    /// Returns a resolver that asks the closure `by`. `Document::parse_with_options` requires that `by` may be asked anything.
    pub fn new(by: F) -> ResolveWith<'input, F>
        ensures { result.by ≡ by }
    {
        ResolveWith {
            by,
            answers: PhantomData,
        }
    }
}

impl<
    'input,
    F: Fn(Option<&str>, &str) -> Result<Option<&'input str>, String> + Drop,
> EntityResolver<'input> for ResolveWith<'input, F> {
    ghost can_resolve = { λ self. F.IsAlwaysCallable self.by };

    ghost allows = { λ self request reply. (pub_id : _) × (uri : _) × (result : _) × F.post self.by pub_id uri result × (request ≡ request_of pub_id uri) × (reply ≡ reply_of result) };

    fn resolve(&self, pub_id: Option<&str>, uri: &str) -> Result<Option<&'input str>, String> {
        (self.by)(pub_id, uri)
    }
}

/// Asks a resolver, if there is one. Without one, returns `Ok(None)`.
pub fn ask<'input, R: EntityResolver<'input>>(
    resolver: &Option<R>,
    pub_id: Option<&str>,
    uri: &str,
) -> Result<Option<&'input str>, String>
    requires { MayAsk R.can_resolve resolver.now }
    ensures { Allows R.allows resolver.now (request_of pub_id.entry uri.entry) (reply_of result) }
{
    match resolver {
        None => Ok(None),
        Some(resolver) => resolver.resolve(pub_id, uri),
    }
}
