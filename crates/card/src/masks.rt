// Masks of lines, by the lines in them.
pub(crate) const VCC_RST: u32 = 3;

pub(crate) const VCC_CLK: u32 = 5;

pub(crate) const VCC_RST_PGM: u32 = 11;

pub(crate) const CLK_PGM: u32 = 12;

pub(crate) const VCC_CLK_PGM: u32 = 13;
