// The table that an airport file means.
ghost use Rattle.std.specs.Prelude.{◌≡◌, Some, None, IfOk, IfErr};
ghost use Rattle.toml.specs.View.{table_view};
ghost use Rattle.airport_files.specs.Document.{document};

use std::alloc::Global;
use toml::Table;

/// Why bytes gave no table.
#[derive(Clone, Copy, Debug, PartialEq, Eq)]
pub(crate) enum TextFault {
    NotToml,
    Memory,
}

/// The table that these bytes mean.
pub(crate) fn table_of(alloc: Global, bytes: &[u8]) -> Result<Table, TextFault>
    ensures ok { IfOk result (λ t. document bytes.now ≡ Some (table_view t)) }
    ensures refused { IfErr result (λ e. (e ≡ TextFault.NotToml) → document bytes.now ≡ None) }
{
    let Ok(text) = std::str::from_utf8(bytes) else {
        return Err(TextFault::NotToml);
    };
    match toml::table_from_str(alloc, text) {
        Ok(table) => Ok(table),
        Err(e) if e.is_memory() => Err(TextFault::Memory),
        Err(_) => Err(TextFault::NotToml),
    }
}
