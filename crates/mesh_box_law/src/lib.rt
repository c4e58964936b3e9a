// Laws of the box of vertices: it has no NaN, the box of two lists is the union of their boxes, and it bounds what it holds. No functions.
#![tactic(auto)]
