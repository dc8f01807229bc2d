// The abstract follower (FOL): specs/Follower.antt; takes of bytes: Takes.antt; its edges computed: Edges.antt. No code.
#![tactic(auto)]
