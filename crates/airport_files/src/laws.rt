// A law about the meaning of two files. The law is the contract of a function that does nothing.
ghost use Rattle.std.specs.Prelude.{◌≢◌, ℕ, List, Err};
ghost use Rattle.apron_rules.specs.declared.refusals.AirportFault.TheVariants as refused;
ghost use Rattle.airport_files.specs.declared.read.FileFault.TheVariants as file;
ghost use Rattle.airport_files.specs.Meaning.{meaning};

/// The meaning of two files is never a lack of memory, nor an airport that is refused for it.
pub fn files_mean_no_want_of_memory()
    ensures files { (airport types : List ℕ) → meaning airport types ≢ Err file.Memory }
    ensures made { (airport types : List ℕ)
        → meaning airport types ≢ Err (file.Airport refused.Memory) }
{}
