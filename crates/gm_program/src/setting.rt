// What the words of a run say to its commands.

/// The words after the program's name, as far as commands ask for them.
#[derive(Clone, Copy, Debug, PartialEq, Eq)]
pub(crate) struct Setting {
    /// Whether a folder is named.
    pub(crate) folder_named: bool,
}

/// The setting where there is no word.
pub(crate) const PLAIN: Setting = Setting {
    folder_named: false,
};
