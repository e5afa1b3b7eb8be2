ghost use Rattle.std.specs.Prelude.{◌≡◌, ◌%◌, Option, length};
ghost use Rattle.atomic_table.specs.Table.{State};
ghost use Rattle.sb_message.specs.declared.message.Msg.{Msg};
ghost use Rattle.slot_queue.specs.declared.view.View.{View};
ghost use Rattle.slot_queue.specs.declared.view.Plan.{Plan};
ghost use Rattle.slot_queue.specs.Words.{word_at, IsProducers};
ghost use Rattle.slot_queue.specs.Rule.{Stands};

/// Where the word of the consumer's next slot is the producer's, all that was sent has been received.
pub fn nothing_waits()
    ensures { (plan : Plan) (state : State (Option Msg) View) (stands : Stands plan state)
        → IsProducers (word_at state.words (length stands.lists.received % plan.slots))
        → stands.lists.received ≡ stands.lists.sent }
{}
