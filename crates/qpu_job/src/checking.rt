//! The programs of a job, checked.
ghost use Rattle.std.specs.Prelude.{◌≡◌, ◌≤◌, All, IfOk, IfErr, OnOk, length};
ghost use Rattle.qpu_flow.specs.Code.{AllInProfile};
ghost use Rattle.qpu_hazard.specs.Refusal.{NoneRefusable};
ghost use Rattle.qpu_job.specs.declared.job.TheConstants.{MOST_PROGRAMS};
ghost use Rattle.qpu_job.specs.Programs.{codes_of};
ghost use Rattle.qpu_job.specs.Opening.{IsShort, IsCheckedFault};

use crate::code::Code;
use crate::fault::JobFault;
use qpu_flow::{Flow, FlowFault};
use qpu_hazard::{CheckFault, Checked, Programs, judge};
use std::alloc::Global;

/// The flow of each program. The one error beside want of memory is the first word outside the
/// profile, of the first program with one.
fn flows_of(alloc: Global, codes: &[Code]) -> Result<Vec<Flow>, JobFault>
    requires few { length codes.now ≤ MOST_PROGRAMS }
    requires short { All IsShort (codes_of codes.now) }
    ensures ok { IfOk result (λ flows. flows.items ≡ codes_of codes.now) }
    ensures inside { OnOk result (All AllInProfile (codes_of codes.now)) }
    ensures err { IfErr result (λ fault. IsCheckedFault (codes_of codes.now) fault) }
{
    let mut flows = Vec::new(alloc);
    for (program, code) in codes.iter().enumerate() {
        let flow = match Flow::of(alloc, &code.words) {
            Ok(flow) => flow,
            Err(FlowFault::Word(at, fault)) => {
                return Err(JobFault::Check {
                    program: program as u32,
                    fault: CheckFault::Word(at, fault),
                });
            }
            Err(FlowFault::Memory) => return Err(JobFault::Memory),
        };
        let Ok(()) = flows.push(flow) else {
            return Err(JobFault::Memory);
        };
    }
    Ok(flows)
}

/// Judges programs of the profile. The one error beside want of memory is the first hazard, of the
/// first program with one.
fn judge_all(alloc: Global, flows: Vec<Flow>) -> Result<Vec<Checked>, JobFault>
    requires few { length flows.items ≤ MOST_PROGRAMS }
    requires inside { All AllInProfile flows.items }
    ensures ok { IfOk result (λ list. list.items ≡ flows.items) }
    ensures clean { OnOk result (All NoneRefusable flows.items) }
    ensures err { IfErr result (λ fault. IsCheckedFault flows.items fault) }
{
    let mut list = Vec::new(alloc);
    for flow in flows {
        let program = list.len() as u32;
        let checked = match judge(alloc, flow) {
            Ok(checked) => checked,
            Err(CheckFault::Word(_, _)) => unreachable!(),
            Err(CheckFault::Hazard { rule, at, before }) => {
                let fault = CheckFault::Hazard { rule, at, before };
                return Err(JobFault::Check { program, fault });
            }
            Err(CheckFault::Memory) => return Err(JobFault::Memory),
        };
        let Ok(()) = list.push(checked) else {
            return Err(JobFault::Memory);
        };
    }
    Ok(list)
}

/// Checks programs: first whether all their words are in the profile, then whether some path of
/// them breaks a rule.
pub(crate) fn check_programs(alloc: Global, codes: &[Code]) -> Result<Programs, JobFault>
    requires few { length codes.now ≤ MOST_PROGRAMS }
    requires short { All IsShort (codes_of codes.now) }
    ensures ok { IfOk result (λ programs. programs.list.items ≡ codes_of codes.now) }
    ensures inside { OnOk result (All AllInProfile (codes_of codes.now)) }
    ensures clean { OnOk result (All NoneRefusable (codes_of codes.now)) }
    ensures err { IfErr result (λ fault. IsCheckedFault (codes_of codes.now) fault) }
{
    let flows = flows_of(alloc, codes)?;
    Ok(Programs {
        list: judge_all(alloc, flows)?,
    })
}
