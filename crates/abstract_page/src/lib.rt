// What a follower shows, as a page of text: specs/Page.antt; the reading of it: ReadPage.antt. No code.
#![tactic(auto)]
