//! What holds of all files. Nothing runs.

ghost use Rattle.schedule.specs.Laws.{SchedulesAreOne, FaultyIsNoSchedule, FirstFaultsAreOne};

/// No bytes spell two schedules.
pub fn schedules_are_one()
    ensures { SchedulesAreOne }
{}

/// Bytes with a faulty line spell no schedule.
pub fn faulty_is_no_schedule()
    ensures { FaultyIsNoSchedule }
{}

/// Bytes have one first faulty line, and one lowest fault there.
pub fn first_faults_are_one()
    ensures { FirstFaultsAreOne }
{}
