//! What `--version` and `--help` print: the product's version and the versions of Unicode. The rules and
//! table files have the versions of `ucd`; columns and grapheme clusters have the version of the kit's
//! tables. `tools/sync_versions` generates this file from `VERSION`, `ucd` and the kit's tables. CI checks
//! it.

/// The product's version, followed by the versions of Unicode.
pub const VERSION: &str = "0.6.0
Unicode 15.0 or 17.0: the rules and the table files
Unicode 18.0: columns and grapheme clusters";

/// The Unicode versions of the rules and the table files.
pub const UNICODE_VERSIONS: &str = "Unicode 15.0 or 17.0";
