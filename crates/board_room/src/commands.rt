// The board's commands.
ghost use Rattle.std.specs.Prelude.{◌≡◌, length, take, Some, IsErr};
ghost use Rattle.board.specs.Events.{set_up};
ghost use Rattle.board.specs.Groups.{applied};
ghost use Rattle.board_room.specs.Event.{after_event};

use crate::state::Awning;
use board::{After, Node, Put, Settings};
use console::{BoardCommand, Event, Rows, Said};
use refusal::Refusal;

// The board on the bench; a fresh start has none.
#[derive(Clone, Copy, Default)]
pub struct BoardRoom {
    pub awning: Option<Awning>,
}

impl BoardRoom {
    // A command of the board but `frame`.
    pub fn obey(&mut self, command: BoardCommand, rows: &mut Rows)
        ensures state { command ≡ BoardCommand.State → self.new ≡ self.old }
        ensures refused_set_up { (s : Settings) → command ≡ BoardCommand.SetUp s → IsErr (set_up s).verdict → self.new ≡ self.old }
        ensures refused_event { (e : Event) (a : Awning) → command ≡ BoardCommand.Event e → self.old.awning ≡ Some a → IsErr (after_event a.node e).verdict → self.new ≡ self.old }
        ensures rows { take (length rows.old) rows.new ≡ rows.old }
    {
        match (command, self.awning) {
            (BoardCommand::SetUp(settings), _) => rows.put(self.set_up(settings)),
            (BoardCommand::Event(event), Some(awning)) => rows.put(self.after_event(awning, event)),
            (BoardCommand::State, Some(awning)) => rows.put(awning),
            (_, None) => rows.put(Said::NoNode),
        }
    }

    // A refusal leaves the earlier board.
    fn set_up(&mut self, settings: Settings) -> Said<'static>
        ensures { IsErr (set_up settings).verdict → self.new ≡ self.old }
    {
        match outcome(board::set_up(settings)) {
            Ok(node) => {
                let groups = board::no_groups();
                self.awning = Some(Awning { node, groups });
                Said::Ready
            }
            Err(refusal) => Said::Refused(refusal),
        }
    }

    // `pulse DEC`, `blocked BYTE`, `cleared`, `power`; a refused event has changed nothing.
    fn after_event(&mut self, awning: Awning, event: Event) -> Said<'static>
        ensures { IsErr (after_event awning.node event).verdict → self.new ≡ self.old }
    {
        match outcome(after(awning.node, event)) {
            Ok(node) => {
                self.turn(awning, node, None);
                Said::Done
            }
            Err(refusal) => Said::Refused(refusal),
        }
    }

    // The board goes on as another node, with a change of its table.
    pub fn turn(&mut self, awning: Awning, node: Node, change: Option<Put>)
        ensures { self.new.awning ≡ Some (record { node = node; groups = applied awning.groups change }) }
    {
        let groups = board::apply(awning.groups, change);
        self.awning = Some(Awning { node, groups });
    }
}

#[tactic(auto, unfolding(crate::specs::Event::after_event))]
fn after(node: Node, event: Event) -> After
    ensures { result ≡ after_event node event }
{
    match event {
        Event::Pulse(pulse) => board::at_pulse(node, pulse),
        Event::Blocked(cause) => board::blocked(node, cause),
        Event::Cleared => board::cleared(node),
        Event::Power => board::power_up(node),
    }
}

fn outcome(after: After) -> Result<Node, Refusal>
    ensures { IsErr after.verdict → IsErr result }
{
    after.verdict?;
    Ok(after.node)
}
