// What the definitions imply: the reply law, demand 3, and how long a reply is. It holds no code.
#![tactic(auto)]
