// Laws of runs and of imports. Each is the contract of a function that does nothing.
ghost use Rattle.apron_run.specs.Causes.{NoFaultIsTold};
ghost use Rattle.apron_run.specs.SecondImport.{AllAreThere, SecondAddsNothing};

use journal_disk::Disk;

/// After an import that met each visit all of them are in the plan with the same data, and a second
/// import of them into the history that it left adds nothing.
pub fn second_imports_add_nothing()
    ensures there { AllAreThere }
    ensures nothing { SecondAddsNothing }
{}

/// A run over a shelf, a source and a sink that never fail, whose counts of faults are 0, ends with
/// none of the statuses that tell of their faults: its faults have a cause.
pub fn ends_that_never_fail_tell_no_fault<D: Disk>()
    ensures none { NoFaultIsTold D.state }
{}
