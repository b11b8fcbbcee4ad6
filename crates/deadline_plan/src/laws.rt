//! What is true of all streams, and of all sets of jobs.

ghost use Rattle.std.specs.Prelude.{◌≡◌, ◌<◌, ◌≤◌, ◌==◌, ◌&&◌, ℕ, List, All, count_by};
ghost use Rattle.deadline_plan.specs.Grants.{grants, AreGrantedInTime};
ghost use Rattle.deadline_plan.specs.Jobs.{IsDeadlineStream, IsOverload, NothingOver, job, jobs_of};
ghost use Rattle.deadline_plan.specs.Placings.{IsPlacing};
ghost use Rattle.deadline_plan.specs.declared.job.Job.{Job};
ghost use Rattle.deadline_plan.specs.declared.stream.DeadlineStream.{DeadlineStream};

/// Each number whose job ends by the last frame has it once among the jobs of the stream, and there is no other job.
pub fn a_stream_has_the_jobs_of_its_numbers()
    ensures once { (frames : ℕ) (s : DeadlineStream) → IsDeadlineStream s → (m : ℕ) → (job s m).end ≤ frames
        → count_by (λ j. (j.release == (job s m).release) && (j.end == (job s m).end)) (jobs_of frames s) ≡ 1 }
    ensures no_other { (frames : ℕ) (s : DeadlineStream) → All (λ j. (m : ℕ) × (j ≡ job s m) × (j.end ≤ frames)) (jobs_of frames s) }
{}

/// Where a pair of frames is over, no placing of the jobs in frames from release to end - 1 has enough slots.
pub fn an_overload_has_no_placing()
    ensures { (slots : ℕ) (js : List Job) (from until : ℕ) → IsOverload slots js from until → (frame_of : Job → ℕ) → IsPlacing slots js frame_of → ⊥ }
{}

/// Where no pair of frames is over, earliest deadline first grants every job once, in a frame from its release to its
/// end - 1.
pub fn earliest_deadline_first_keeps_all()
    ensures { (slots frames : ℕ) (js : List Job) → All (λ j. (j.release < j.end) × (j.end ≤ frames)) js → NothingOver slots js
        → AreGrantedInTime js (grants slots frames js) }
{}
