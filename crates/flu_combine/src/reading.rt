//! Reading the partials.

ghost use Rattle.std.specs.Prelude.{◌≡◌, ◌≢◌, [], ◌∷◌, ◌++◌, Err, IfOk, IfErr, IsErrOf, OnOk, length};
ghost use Rattle.flu_model.specs.Erasure.{job_of};
ghost use Rattle.flu_outside.specs.Outside.{WhereTold, SameCounts};
ghost use Rattle.flu_outside.specs.Taking.{TakesFrom, TookFronts};
ghost use Rattle.flu_deps.specs.Checking.{program_of};
ghost use Rattle.flu_deps.specs.Validated.{plan_of, IsValidFor};
ghost use Rattle.flu_contribution.specs.Laws.{AreNodesApart};
ghost use Rattle.flu_streams.specs.Clocks.{AreEarly};
ghost use Rattle.flu_streams.specs.Files.{LeavesOthers};
ghost use Rattle.flu_joining.specs.Parts.{waiting_in, waiting_in_each};
ghost use Rattle.flu_parse.specs.Printing.{normal_form};
ghost use Rattle.flu_plan.specs.Printing.{printed};
ghost use Rattle.flu_combine.specs.Faults.{IsCause, HidesNoDefectBefore};
ghost use Rattle.flu_combine.specs.Reading.{IsApartBeside, IsOneRead, AreRead, IsRefusal, IsRefusedAt, ranks_told};

use crate::accepting::{Accepted, accept};
use crate::fault::{CombineFault, PartialDefect, Refused};
use flu_deps::{Checked, Valid};
use flu_joining::Queue;
use flu_model::Text;
use flu_outside::{Files, TakeFault, read_whole};
use flu_parse::print_job;
use flu_plan::print_plan;
use std::alloc::{AllocError, Global};

/// How many bytes a partial has at most.
const MOST_BYTES: usize = 536_870_912;

// What was accepted of partials: their nodes, what was sent, and where the rows stand that the nodes read.
#[derive(Drop)]
pub(crate) struct Partials {
    pub(crate) nodes: Vec<u32>,
    pub(crate) queues: Vec<Queue>,
    pub(crate) told: Vec<u64>,
}

impl Partials {
    // One more is accepted.
    fn add(&mut self, accepted: Accepted) -> Result<(), AllocError>
        ensures nodes { OnOk result (self.new.nodes.items ≡ self.old.nodes.items ++ (accepted.node ∷ [])) }
        ensures queues { OnOk result (waiting_in_each self.new.queues.items ≡ waiting_in_each self.old.queues.items ++ (waiting_in accepted.queue ∷ [])) }
        ensures told { OnOk result (self.new.told.items ≡ self.old.told.items ++ ranks_told accepted.told) }
    {
        self.nodes.push(accepted.node)?;
        self.queues.push(accepted.queue)?;
        if let Some(told) = accepted.told {
            self.told.push(told.first)?;
            self.told.push(told.last)?;
        }
        Ok(())
    }
}

// Reads a partial to its end, beside those of some nodes.
fn read_one<F: Files>(
    alloc: Global,
    files: &mut F,
    c: &Checked,
    v: &Valid,
    job: &str,
    plan: &str,
    nodes: &[u32],
    name: &str,
) -> Result<Accepted, Refused>
    requires valid { IsValidFor (program_of c.now) v.now }
    requires job { job.now ≡ normal_form (job_of (program_of c.now)) }
    requires plan { plan.now ≡ printed (program_of c.now) (plan_of v.now).nodes }
    ensures read { IfOk result (λ a. WhereTold (F.left files.old) (F.left files.new)
        (IsOneRead (program_of c.now) (plan_of v.now).nodes name.now a.node (waiting_in a.queue) (ranks_told a.told))) }
    ensures early { IfOk result (λ a. AreEarly (program_of c.now) (ranks_told a.told)) }
    ensures apart { IfOk result (λ a. IsApartBeside (program_of c.now) (plan_of v.now).nodes nodes.now a.node) }
    ensures refused { IfErr result (IsRefusal (program_of c.now) (plan_of v.now).nodes nodes.now name.now (F.left files.old) (F.left files.new)
        (F.faults files.old) (F.faults files.new)) }
    ensures taken { WhereTold (F.left files.old) (F.left files.new) (TakesFrom name.now) }
    ensures quiet { result ≢ Err Refused.ReadFault → SameCounts (F.faults files.old) (F.faults files.new) }
    ensures puts { SameCounts (F.put_faults files.old) (F.put_faults files.new) }
{
    let bytes = match read_whole(alloc, files, name, MOST_BYTES) {
        Ok(bytes) => bytes,
        Err(TakeFault::Failed) => return Err(Refused::ReadFault),
        Err(TakeFault::NoMemory) => return Err(Refused::NoMemory),
    };
    if bytes.len() > MOST_BYTES {
        return Err(Refused::Defect(PartialDefect::TooLong));
    }
    accept(alloc, c, v, job, plan, nodes, bytes.as_slice())
}

// Why a partial at a place is not accepted.
fn refused_at(place: usize, refused: Refused) -> CombineFault
    ensures { IsRefusedAt place refused result }
{
    match refused {
        Refused::Defect(defect) => CombineFault::Partial(place, defect),
        Refused::ReadFault => CombineFault::ReadFault,
        Refused::NoMemory => CombineFault::NoMemory,
    }
}

/// Reads partials to their ends, one after another, each of a node of its own.
pub(crate) fn read_partials<F: Files>(
    alloc: Global,
    files: &mut F,
    c: &Checked,
    v: &Valid,
    names: &[Text],
) -> Result<Partials, CombineFault>
    requires valid { IsValidFor (program_of c.now) v.now }
    ensures read { IfOk result (λ ps. WhereTold (F.left files.old) (F.left files.new)
        (AreRead (program_of c.now) (plan_of v.now).nodes names.now ps.nodes.items (waiting_in_each ps.queues.items) ps.told.items)) }
    ensures early { IfOk result (λ ps. AreEarly (program_of c.now) ps.told.items) }
    ensures apart { IfOk result (λ ps. AreNodesApart (program_of c.now) (plan_of v.now).nodes ps.nodes.items) }
    ensures as_many_nodes { IfOk result (λ ps. length ps.nodes.items ≡ length names.now) }
    ensures as_many { IfOk result (λ ps. length (waiting_in_each ps.queues.items) ≡ length names.now) }
    ensures cause { IfErr result (IsCause (program_of c.now) (plan_of v.now).nodes names.now (F.left files.old) (F.left files.new)
        (F.faults files.old) (F.faults files.new)) }
    ensures no_write { result ≢ Err CombineFault.WriteFault }
    ensures hides { IsErrOf result CombineFault.ReadFault → HidesNoDefectBefore (program_of c.now) (plan_of v.now).nodes names.now
        (F.left files.old) (F.left files.new) (F.faults files.old) (F.faults files.new) }
    ensures fronts { WhereTold (F.left files.old) (F.left files.new) TookFronts }
    ensures others { WhereTold (F.left files.old) (F.left files.new) (LeavesOthers names.now) }
    ensures quiet { result ≢ Err CombineFault.ReadFault → SameCounts (F.faults files.old) (F.faults files.new) }
    ensures puts { SameCounts (F.put_faults files.old) (F.put_faults files.new) }
{
    let job = print_job(alloc, c.program())?;
    let plan = print_plan(alloc, c.program(), v.plan())?;
    let mut partials = Partials {
        nodes: Vec::new(alloc),
        queues: Vec::new(alloc),
        told: Vec::new(alloc),
    };
    'partials: for (place, name) in names.iter().enumerate() {
        let read = read_one(
            alloc,
            files,
            c,
            v,
            job.as_str(),
            plan.as_str(),
            partials.nodes.as_slice(),
            name.as_str(),
        );
        match read {
            Ok(accepted) => partials.add(accepted)?,
            Err(refused) => return Err(refused_at(place, refused)),
        }
    }
    Ok(partials)
}
