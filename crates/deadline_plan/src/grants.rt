//! Which frame grants which job its slot.

ghost use Rattle.std.specs.Prelude.{◌≡◌, ◌<◌, ◌≤◌, ◌++◌, [], ◌∷◌, ◌&&◌, nat_le, nat_lt, if◌then◌else◌, length, map, IfOk, All};
ghost use Rattle.lwb_base.specs.declared.limits.TheConstants.{DATA_SLOTS};
ghost use Rattle.deadline_plan.specs.Grants.{comes_before, granted_jobs as granted_of, jobs_left as left_of, grants_from, owners_of_round as round_of};
ghost use Rattle.deadline_plan.specs.Jobs.{IsDeadlineStream, job as job_of, jobs_of, jobs as all_jobs};
ghost use Rattle.deadline_plan.specs.Sorting.{IsOrdered};
ghost use Rattle.lwb_base.specs.Sorting.{in_order};

use crate::{DeadlineStream, Job};
use lwb_base::{Memory, Owner};
use schedule_codec::Owners;
use std::alloc::Global;

/// The jobs of the streams that end by the last frame, in their order.
pub fn queue(alloc: Global, streams: &[DeadlineStream], frames: u32) -> Result<Vec<Job>, Memory>
    requires streams { All IsDeadlineStream streams.now }
    requires frames { frames ≤ 1024 }
    ensures { IfOk result (λ v. v.items ≡ in_order comes_before (all_jobs frames streams.now)) }
{
    let mut jobs = Vec::new(alloc);
    for stream in streams {
        add_jobs(&mut jobs, stream, frames)?;
    }
    jobs.sort()?;
    Ok(jobs)
}

fn add_jobs(jobs: &mut Vec<Job>, stream: &DeadlineStream, frames: u32) -> Result<(), Memory>
    requires stream { IsDeadlineStream stream.now }
    requires frames { frames ≤ 1024 }
    ensures { IfOk result (λ done. jobs.new.items ≡ jobs.old.items ++ jobs_of frames stream.now) }
{
    for number in 0..frames {
        add_job(jobs, stream, number, frames)?;
    }
    Ok(())
}

// Adds the job of that number, unless it ends past the last frame.
fn add_job(
    jobs: &mut Vec<Job>,
    stream: &DeadlineStream,
    number: u32,
    frames: u32,
) -> Result<(), Memory>
    requires stream { IsDeadlineStream stream.now }
    requires number { number ≤ 1024 }
    ensures { IfOk result
        (λ done. jobs.new.items ≡ jobs.old.items ++ (if nat_le (job_of stream.now number).end frames then job_of stream.now number ∷ [] else [])) }
{
    let release = stream.start + number * u32::from(stream.period);
    let end = release + u32::from(stream.deadline);
    if end > frames {
        return Ok(());
    }
    let job = Job {
        end,
        owner: stream.owner,
        release,
    };
    jobs.push(job)?;
    Ok(())
}

/// The owners of the slots of each frame, where these jobs wait at first, in their order.
pub fn rounds(
    alloc: Global,
    mut waiting: Vec<Job>,
    slots: u8,
    frames: u32,
) -> Result<Vec<Owners>, Memory>
    requires { slots ≤ DATA_SLOTS }
    ensures { IfOk result (λ v. v.items ≡ map round_of (grants_from slots 0 frames waiting.items)) }
{
    let mut rounds = Vec::new(alloc);
    for frame in 0..frames {
        let (granted, left) = grant(alloc, &waiting, slots, frame)?;
        let round = round(alloc, &granted)?;
        rounds.push(round)?;
        waiting = left;
    }
    Ok(rounds)
}

// What the frame grants of the waiting jobs, and what it leaves.
fn grant(
    alloc: Global,
    waiting: &[Job],
    slots: u8,
    frame: u32,
) -> Result<(Vec<Job>, Vec<Job>), Memory>
    ensures granted { IfOk result (λ r. r.0.items ≡ granted_of slots frame waiting.now) }
    ensures left { IfOk result (λ r. r.1.items ≡ left_of slots frame waiting.now) }
{
    let mut granted = Vec::new(alloc);
    let mut left = Vec::new(alloc);
    for job in waiting {
        let is_granted = granted.len() < usize::from(slots) && job.release <= frame;
        add_if(&mut granted, job, is_granted)?;
        add_if(&mut left, job, !is_granted)?;
    }
    Ok((granted, left))
}

fn add_if(jobs: &mut Vec<Job>, job: &Job, wanted: bool) -> Result<(), Memory>
    ensures { IfOk result (λ done. jobs.new.items ≡ jobs.old.items ++ (if wanted then job.now ∷ [] else [])) }
{
    if wanted {
        jobs.push(*job)?;
    }
    Ok(())
}

// The owners of the jobs, ascending.
fn round(alloc: Global, granted: &[Job]) -> Result<Owners, Memory>
    requires { length granted.now ≤ DATA_SLOTS }
    ensures { IfOk result (λ r. r ≡ round_of granted.now) }
{
    let mut owners = owners_of(alloc, granted)?;
    owners.sort()?;
    Ok(of_ascending(&owners))
}

fn owners_of(alloc: Global, granted: &[Job]) -> Result<Vec<Owner>, Memory>
    ensures { IfOk result (λ v. v.items ≡ map (λ j. j.owner) granted.now) }
{
    let owners = granted.iter().map(|j| j.owner).collect(alloc)?;
    Ok(owners)
}

fn of_ascending(owners: &[Owner]) -> Owners
    requires few { length owners.now ≤ DATA_SLOTS }
    requires ascending { IsOrdered nat_le owners.now }
    ensures { result ≡ owners.now }
{
    let mut round = Owners::new();
    for owner in owners {
        round.add(*owner);
    }
    round
}
