//! The channels of a job, and all their ends.

ghost use Rattle.std.specs.Prelude.{◌≡◌, ◌≤◌, ◌+◌, [], IfOk, OnOk};
ghost use Rattle.hub_ends.specs.Hub.{HasRooms as HasRoomsOf, IsNewHubOf, channels_of};
ghost use Rattle.hub_ends.specs.Channel.{room_of};
ghost use Rattle.hub_ends.specs.TaskChannels.{channel_on, sent_on};
ghost use Rattle.hub_ends.specs.ChannelEnds.{IsNewSender, channel_of, received_by, senders_of, source_of};

use crate::channel_ends::{ReceivingEnd, SendingEnd};
use crate::coordinator_ends::CoordinatorEnds;
use crate::message::Message;
use crate::pass::{TickPass, WorkerPass};
use crate::task_channel::TaskChannel;
use std::alloc::{AllocError, Global};
use std::sync::Arc;
use std::sync::atomic::AtomicBool;
use superstep::Origin;

/// The lists with an item for each worker or sender.
#[derive(Drop)]
pub struct Rows<J: Origin> {
    task_channels: Vec<TaskChannel<J>>,
    passes: Vec<WorkerPass<J>>,
    gone: Vec<bool>,
}

ghost use Rattle.hub_ends.specs.inside.Opening.{AreEmptyRows, AreFilledRows, IsNewPassOf};

/// Makes room for this many workers.
pub fn new_rows<J: Origin>(alloc: Global, workers: usize) -> Result<Rows<J>, AllocError>
    requires { workers ≤ 64 }
    ensures { IfOk result (AreEmptyRows workers) }
{
    let gone = Vec::from_elem(alloc, false, workers + 1)?;
    Ok(Rows {
        task_channels: Vec::with_capacity(alloc, workers)?,
        passes: Vec::with_capacity(alloc, workers)?,
        gone,
    })
}

// Opens the next worker's task channel, with room for two orders, and makes the worker's pass.
fn open_task_channel<J: Origin>(
    alloc: Global,
    worker: u32,
    events: &mut ReceivingEnd<Message<J>>,
    ticks: &SendingEnd<Message<J>>,
) -> Result<(TaskChannel<J>, WorkerPass<J>), AllocError>
    requires ticks { channel_of ticks.now ≡ source_of events.old }
    requires next { senders_of events.old ≡ worker + 1 }
    ensures task_channel { IfOk result (λ pair. sent_on pair.0 ≡ []) }
    ensures pass { IfOk result (λ pair.
        IsNewPassOf (source_of events.old) (channel_on pair.0) worker pair.1) }
    ensures room { IfOk result (λ pair. room_of (channel_on pair.0) ≡ 2) }
    ensures senders { OnOk result (senders_of events.new ≡ worker + 2) }
    ensures received { received_by events.new ≡ received_by events.old }
    ensures channel { source_of events.new ≡ source_of events.old }
{
    let (orders, task_channel) = TaskChannel::open(alloc, 2)?;
    let mine = events.add_sender(ticks)?;
    Ok((
        task_channel,
        WorkerPass {
            worker,
            events: mine,
            orders,
        },
    ))
}

// Opens the task channels of all workers, and makes their passes.
fn open_task_channels<J: Origin>(
    alloc: Global,
    workers: u32,
    events: &mut ReceivingEnd<Message<J>>,
    ticks: &SendingEnd<Message<J>>,
    rows: &mut Rows<J>,
) -> Result<(), AllocError>
    requires ticks { channel_of ticks.now ≡ source_of events.old }
    requires first { senders_of events.old ≡ 1 }
    requires empty { AreEmptyRows workers rows.old }
    ensures filled { OnOk result (AreFilledRows (source_of events.old) workers rows.new) }
    ensures gone { rows.new.gone.items ≡ rows.old.gone.items }
    ensures senders { OnOk result (senders_of events.new ≡ workers + 1) }
    ensures received { received_by events.new ≡ received_by events.old }
    ensures channel { source_of events.new ≡ source_of events.old }
{
    for worker in 0..workers {
        let (task_channel, pass) = open_task_channel(alloc, worker, events, ticks)?;
        rows.task_channels.push_reserved(task_channel);
        rows.passes.push_reserved(pass);
    }
    Ok(())
}

// Opens the channel of events, which has room for two messages more than there are workers, and the workers' task channels.
// Returns the coordinator's end of the channel of events and the ticker's.
fn open_channels<J: Origin>(
    alloc: Global,
    workers: u32,
    rows: &mut Rows<J>,
) -> Result<(ReceivingEnd<Message<J>>, SendingEnd<Message<J>>), AllocError>
    requires few { workers ≤ 64 }
    requires empty { AreEmptyRows workers rows.old }
    ensures ticker { IfOk result (λ ends. IsNewSender (source_of ends.0) 0 ends.1) }
    ensures senders { IfOk result (λ ends. senders_of ends.0 ≡ workers + 1) }
    ensures received { IfOk result (λ ends. received_by ends.0 ≡ []) }
    ensures room { IfOk result (λ ends. room_of (source_of ends.0) ≡ workers + 2) }
    ensures filled { IfOk result (λ ends. AreFilledRows (source_of ends.0) workers rows.new) }
    ensures gone { rows.new.gone.items ≡ rows.old.gone.items }
{
    let (mut events, ticks) = ReceivingEnd::open(alloc, workers as usize + 2)?;
    open_task_channels(alloc, workers, &mut events, &ticks, rows)?;
    Ok((events, ticks))
}

// Makes the flag that stops the ticker, for the coordinator and for the ticker.
fn stop_flags(
    alloc: Global,
) -> Result<(Arc<AtomicBool, Global>, Arc<AtomicBool, Global>), AllocError> {
    let stopped = Arc::new(alloc, AtomicBool::new(false))?;
    let seen = Arc::try_clone(&stopped)?;
    Ok((stopped, seen))
}

/// Opens the channels of this many workers and the ticker. Returns all their ends.
pub fn connect<J: Origin>(
    alloc: Global,
    workers: u32,
    mut rows: Rows<J>,
) -> Result<(CoordinatorEnds<J>, Vec<WorkerPass<J>>, TickPass<J>), AllocError>
    requires few { workers ≤ 64 }
    requires rows { AreEmptyRows workers rows }
    ensures hub { IfOk result (λ hub. IsNewHubOf workers hub.0 hub.1 hub.2) }
    ensures rooms { IfOk result (λ hub. HasRoomsOf workers (channels_of hub.0)) }
{
    let (stopped, seen) = stop_flags(alloc)?;
    let (events, ticks) = open_channels(alloc, workers, &mut rows)?;
    let Rows {
        task_channels,
        passes,
        gone,
    } = rows;
    Ok((
        CoordinatorEnds {
            events,
            task_channels,
            gone,
            stopped,
        },
        passes,
        TickPass {
            events: ticks,
            stopped: seen,
        },
    ))
}
