//! What the program says of itself.

/// What `--version` says behind the program's name: its version, that of the tables that it keeps a book in, the kit
/// that it is proved with, as `rt version` prints it, and the commit of its sources, which `git archive` writes here.
pub(crate) const VERSION: &str =
    "0.14.0, tables 3, rattle-kit-13b logic dac8208d650f15bf, commit $Format:%H$";
