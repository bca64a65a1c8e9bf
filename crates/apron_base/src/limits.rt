// The limits that this crate's clauses name, as numbers.
ghost use Rattle.std.specs.Prelude.{◌≡◌, ◌^◌};
ghost use Rattle.apron_base.specs.Digits.{most_digits};
ghost use Rattle.apron_base.specs.Name.{most_name_bytes};

use crate::{CALL_END, MAX_DIGITS, MAX_ENTRIES, MAX_ENTRY, MAX_NAME_BYTES};

/// Each limit of the code that clauses name is this number.
pub fn limits_are_as_defined()
    ensures entries { MAX_ENTRIES ≡ 200000 }
    ensures entry { MAX_ENTRY ≡ 1024 }
    ensures digits { MAX_DIGITS ≡ most_digits }
    ensures name { MAX_NAME_BYTES ≡ most_name_bytes }
    ensures calls { CALL_END ≡ 2 ^ 62 }
{}
