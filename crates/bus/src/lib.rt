// A fresh bus, and the public calls that read what is lent. None has a `requires`: a state, a length or a number that is out of range is refused by
// document 01's number: such a call changes nothing and gives Err, of which the definitions make the number, and the value 0.
#![tactic(auto, using(refusals::proofs::Answers::exit, refusals::proofs::Answers::refuses), unfolding(refusals::specs::Answers::byte_given, refusals::specs::Answers::word_given, refusals::specs::Refusal::or_else))]

pub mod fresh;
pub mod reads;
