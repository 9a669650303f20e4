//! Names, as they are written.

/// A name as it is written (Namespaces in XML section 4). The prefix is empty where there is no colon.
#[derive(Clone, Copy)]
pub struct QName<'input> {
    pub prefix: &'input str,
    pub local: &'input str,
}
