// The numbers of a layout and the placement that they make, in specs/, and that legal numbers make a placement, in proofs/.
// The code stands in by_masks, by_strides and layouts.
#![tactic(auto)]
