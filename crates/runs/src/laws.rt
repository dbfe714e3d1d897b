// The theorems about the definitions of a run, each the contract of a function, so that a check asks for its proof.
ghost use Rattle.runs.specs.Accounts.{FilesAccounted, RefusalsTold};
ghost use Rattle.runs.specs.Refusals.{RefusalsLeave};
ghost use Rattle.runs.specs.RefusedSample.{RefusedSample};
ghost use Rattle.runs.specs.Sample.{SampleReport};

// The report of a small request file, byte for byte.
fn sample_computes()
    ensures { SampleReport }
{}

// Of every request file: one answer frame for each counted line, in order, and they add up to the totals.
fn files_are_accounted()
    ensures { FilesAccounted }
{}

// The number of a refusal is never 0, so that 0 means carried out.
fn refusals_are_told()
    ensures { RefusalsTold }
{}

// A refused line changes nothing but the count of lines.
fn refusals_leave_all()
    ensures { RefusalsLeave }
{}

// Refused lines, each with the number of its refusal.
fn refused_sample_computes()
    ensures { RefusedSample }
{}
