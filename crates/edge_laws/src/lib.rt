// What each line's rise and fall does to a card that 10, 14 and 9 let pass: the laws that the card's edges cite. No code.
#![tactic(auto)]
