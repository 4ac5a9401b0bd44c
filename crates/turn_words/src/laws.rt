//! Laws of the turn rule and of histories.
ghost use Rattle.turn_words.specs.Laws.{EachTicketStandsInOneView, NotedGoesOn};

use crate::rule::Chronicle;

/// The tickets that are out are the numbers from the served one up to the next one, each in one view.
pub fn each_ticket_out_stands_in_one_view<T: Chronicle>()
    ensures { EachTicketStandsInOneView T.stands }
{}

/// One item more adds its entry, if it has one, to what is noted, and itself, if it isn't Quiet, to what is heard.
pub fn what_is_noted_goes_on()
    ensures { NotedGoesOn }
{}
