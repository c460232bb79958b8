// The events of a signal that is met, made before it: a paused container is woken by it.
ghost use Rattle.std.specs.Prelude.{◌≡◌, ℕ, ◌∷◌, [], ◌++◌, IfOk, OnOk};
ghost use Rattle.std.specs.List.{flat_map};
ghost use Rattle.machine_model.specs.Step.{at_moment};
ghost use Rattle.machine_model.specs.Calls.Kill.{by_hand};
ghost use Rattle.machine_events.specs.Foretold.{ending_as, running_numbers, told_code, told_end};
ghost use Rattle.container_table.specs.Logs.{container_in};
ghost use Rattle.machine_events.specs.ChangedLives.{renewed};
ghost use Rattle.machine_events.specs.ToldMeet.{lives_on, running_after, thawed_code, told_thaw, told_wake, told_meet, told_deliver};

use crate::tables::Tables;
use container_table::Held;
use engine_text::{Action, Event, NoMemory, Owner, Script};
use machine_events::{Ending, add, is_paused, plain_event};
use std::alloc::Global;

fn add_number(numbers: &mut Vec<u64>, number: u64) -> Result<(), NoMemory>
    ensures { OnOk result (numbers.new.items ≡ numbers.old.items ++ number ∷ []) }
{
    match numbers.push(number) {
        Ok(()) => Ok(()),
        Err(_) => Err(NoMemory),
    }
}

impl Tables {
    // The code with which the exec's process ends once it goes on, if it does.
    fn thaw_code(&self, number: u64, moment: u64) -> Option<u8>
        ensures { result ≡ thawed_code number (at_moment moment self.now.state) }
    {
        let _ = moment;
        self.processes.kernel().thaw_code(Owner::Exec(number))
    }

    // Whether it lives on.
    fn lives_on(&self, number: u64, moment: u64) -> bool
        ensures { result ≡ lives_on number (at_moment moment self.now.state) }
    {
        match self.thaw_code(number, moment) {
            None => true,
            Some(_) => false,
        }
    }

    // The end of the exec with that code, if it ends.
    pub(super) fn tell_thaw(
        &self,
        alloc: Global,
        code: Option<u8>,
        number: u64,
        moment: u64,
        out: &mut Vec<Event>,
    ) -> Result<(), NoMemory>
        ensures { OnOk result (out.new.items ≡ out.old.items
            ++ told_thaw code number (at_moment moment self.now.state)) }
    {
        match code {
            None => Ok(()),
            Some(code) => self.tell_exec(alloc, code, number, moment, out),
        }
    }

    // Event unpause, and the ends of those execs that end as they go on.
    pub(super) fn tell_wake(
        &self,
        alloc: Global,
        h: &Held,
        moment: u64,
        out: &mut Vec<Event>,
    ) -> Result<(), NoMemory>
        ensures { OnOk result (out.new.items ≡ out.old.items
            ++ told_wake h.now.container.number (container_in h.now)
            (at_moment moment self.now.state)) }
    {
        let event = plain_event(alloc, Action::Unpause, &h.container, moment)?;
        add(out, event)?;
        self.tell_thaws(alloc, h.container.number, moment, out)
    }

    fn tell_thaws(
        &self,
        alloc: Global,
        number: u64,
        moment: u64,
        out: &mut Vec<Event>,
    ) -> Result<(), NoMemory>
        ensures { OnOk result (out.new.items ≡ out.old.items
            ++ flat_map (λ j. told_thaw (thawed_code j (at_moment moment self.now.state)) j
            (at_moment moment self.now.state))
            (running_numbers number (at_moment moment self.now.state))) }
    {
        let running = self.running(alloc, number)?;
        let numbers = running.as_slice();
        for n in numbers {
            let code = self.thaw_code(*n, moment);
            self.tell_thaw(alloc, code, *n, moment, out)?;
        }
        Ok(())
    }

    // The numbers of the running execs that live on.
    pub(super) fn running_after(
        &self,
        alloc: Global,
        number: u64,
        moment: u64,
    ) -> Result<Vec<u64>, NoMemory>
        ensures { IfOk result
            (λ v. v.items ≡ running_after number (at_moment moment self.now.state)) }
    {
        let running = self.running(alloc, number)?;
        let numbers = running.as_slice();
        let mut after = Vec::new(alloc);
        for n in numbers {
            if self.lives_on(*n, moment) {
                add_number(&mut after, *n)?;
            }
        }
        Ok(after)
    }

    // The end of a paused container's main process, once it goes on.
    fn tell_woken_end(
        &self,
        alloc: Global,
        code: u8,
        ending: Ending,
        h: &Held,
        script: &Option<Script>,
        moment: u64,
        out: &mut Vec<Event>,
    ) -> Result<(), NoMemory>
        ensures { OnOk result (out.new.items ≡ out.old.items
            ++ told_end
            (running_after h.now.container.number (at_moment moment self.now.state))
            code (ending_as ending (container_in h.now)) script.now
            (at_moment moment self.now.state)) }
    {
        let after = self.running_after(alloc, h.container.number, moment)?;
        self.tell_end(
            alloc,
            after.as_slice(),
            code,
            ending,
            h,
            script,
            moment,
            out,
        )
    }

    /// An unpause, or a signal that wakes a paused container.
    pub fn tell_woken(
        &self,
        alloc: Global,
        code: Option<u8>,
        ending: Ending,
        h: &Held,
        script: &Option<Script>,
        moment: u64,
        out: &mut Vec<Event>,
    ) -> Result<(), NoMemory>
        ensures { OnOk result (out.new.items ≡ out.old.items
            ++ (told_wake h.now.container.number (container_in h.now)
            (at_moment moment self.now.state)
            ++ told_code
            (running_after h.now.container.number (at_moment moment self.now.state))
            code (ending_as ending (container_in h.now)) script.now
            (at_moment moment self.now.state))) }
    {
        self.tell_wake(alloc, h, moment, out)?;
        match code {
            None => Ok(()),
            Some(code) => self.tell_woken_end(alloc, code, ending, h, script, moment, out),
        }
    }

    /// A signal with a thaw, which ends the main process with that code, if it does.
    pub(super) fn tell_met(
        &self,
        alloc: Global,
        code: Option<u8>,
        ending: Ending,
        h: &Held,
        script: &Option<Script>,
        moment: u64,
        out: &mut Vec<Event>,
    ) -> Result<(), NoMemory>
        ensures { OnOk result (out.new.items ≡ out.old.items
            ++ told_meet h.now.container.life.status code h.now.container.number
            (ending_as ending (container_in h.now)) script.now
            (at_moment moment self.now.state)) }
    {
        if is_paused(h.container.life.status) {
            return self.tell_woken(alloc, code, ending, h, script, moment, out);
        }
        self.tell_code(alloc, code, ending, h, script, moment, out)
    }

    // A signal that stops it by hand: a final one of a kill.
    fn tell_last(
        &self,
        alloc: Global,
        code: Option<u8>,
        h: &Held,
        script: &Option<Script>,
        moment: u64,
        out: &mut Vec<Event>,
    ) -> Result<(), NoMemory>
        ensures { OnOk result (out.new.items ≡ out.old.items
            ++ told_meet h.now.container.life.status code h.now.container.number
            (renewed by_hand (container_in h.now)) script.now (at_moment moment self.now.state)) }
    {
        self.tell_met(alloc, code, Ending::by_hand(h), h, script, moment, out)
    }

    // A signal that leaves open how it ends.
    fn tell_sent(
        &self,
        alloc: Global,
        code: Option<u8>,
        h: &Held,
        script: &Option<Script>,
        moment: u64,
        out: &mut Vec<Event>,
    ) -> Result<(), NoMemory>
        ensures { OnOk result (out.new.items ≡ out.old.items
            ++ told_code
            (running_numbers h.now.container.number (at_moment moment self.now.state))
            code (container_in h.now) script.now (at_moment moment self.now.state)) }
    {
        self.tell_code(alloc, code, Ending::of(h), h, script, moment, out)
    }

    /// The signal of a kill: a final one is met, another is sent.
    pub fn tell_delivered(
        &self,
        alloc: Global,
        last: bool,
        code: Option<u8>,
        h: &Held,
        script: &Option<Script>,
        moment: u64,
        out: &mut Vec<Event>,
    ) -> Result<(), NoMemory>
        ensures { OnOk result (out.new.items ≡ out.old.items
            ++ told_deliver last code h.now.container.number (container_in h.now)
            script.now (at_moment moment self.now.state)) }
    {
        if last {
            self.tell_last(alloc, code, h, script, moment, out)
        } else {
            self.tell_sent(alloc, code, h, script, moment, out)
        }
    }
}
