// The edges, P1 on (EDG), each a theorem about the definitions: specs/Edges.antt. No code.
#![tactic(auto)]
