//! The system.
ghost use Rattle.std.specs.Prelude.{IfOk, OnOk, ◌≡◌, ◌++◌};
ghost use Rattle.live_system.specs.Below.system_meaning.specs.Systems.{Moment, opening, at_event};
ghost use Rattle.live_system.specs.Below.system_meaning.specs.Whole.{IsSystem};
ghost use Rattle.live_system.specs.Below.session_text.specs.Display.{rendered};
ghost use Rattle.live_system.specs.Machines.{StandsAt};

use eu_base::{Bytes, NoMemory};
use live_packets::{Packets, TaskDesk, Tasks};
use std::alloc::Global;
use std::marker::Model;

/// What all tasks have together, the live packets, and all tasks over one pool.
#[derive(Drop)]
pub struct System {
    pub(crate) alloc: Global,
    pub(crate) desk: TaskDesk,
    pub(crate) packets: Packets,
    pub(crate) tasks: Tasks,
}

impl Model for System {
    ghost use Rattle.std.specs.Coded.{codes};
    ghost use Rattle.live_system.specs.Below.task_desk.specs.contracts.desk.TaskDesk as desks;
    ghost use Rattle.live_system.specs.Below.live_tasks.specs.contracts.tasks.Tasks as all_tasks;
    ghost use Rattle.live_packets.specs.contracts.packets.Packets as all_packets;
    ghost use Rattle.live_system.specs.Machines as spec;

    ghost Value = { spec.Machine };

    ghost coded = { Prim.hlevel (codes, desks.the_row.coded, all_packets.the_row.coded, all_tasks.the_row.coded) };

    ghost view = { λ system. record { desk = system.desk; library = system.packets; live = system.tasks } };
}

impl System {
    /// UR and PUBLIC, idle, and no channel coupled.
    pub fn opening(alloc: Global) -> Result<System, NoMemory>
        ensures { IfOk result (λ system. StandsAt system (at_event opening)) }
    {
        let desk = TaskDesk::opening(alloc)?;
        match Tasks::opening(alloc) {
            Ok(tasks) => Ok(System {
                alloc,
                desk,
                packets: Packets::new(alloc),
                tasks,
            }),
            Err(NoMemory) => {
                desk.let_go();
                Err(NoMemory)
            }
        }
    }

    /// Lets it go, with all its parts.
    pub fn let_go(self) {
        let System {
            alloc: _,
            desk,
            packets,
            tasks,
        } = self;
        desk.let_go();
        packets.let_go();
        tasks.let_go();
    }

    /// What holds of every system that a machine stands for.
    pub fn law(&self)
        ensures { (m : Moment) → StandsAt self.now m → IsSystem m.system }
    {
        self.desk.law();
    }

    /// An event begins: nothing is shown yet.
    pub fn begin_event(&mut self) -> Result<(), NoMemory>
        ensures { OnOk result ((m : Moment) → StandsAt self.old m → StandsAt self.new (at_event m.system)) }
    {
        self.desk.clear();
        Ok(())
    }

    /// Appends what was shown in the course of the event, in the plain form or the other.
    pub fn render(&self, plain: bool, out: &mut Bytes) -> Result<(), NoMemory>
        ensures { OnOk result ((m : Moment) → StandsAt self.now m → out.new ≡ out.old ++ rendered plain m.display.shown) }
    {
        self.desk.render(plain, out)
    }
}
