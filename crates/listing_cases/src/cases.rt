// Files with their listings, from a model that was written apart from this code.
pub(crate) mod call_line;
pub(crate) mod calls;
pub(crate) mod names;
pub(crate) mod settings;
pub(crate) mod settings_line;

#[derive(Clone, Copy)]
pub(crate) struct Case {
    pub(crate) name: &'static str,
    pub(crate) input: &'static [u8],
    pub(crate) listing: &'static [u8],
}
