// Runs of the AT91 controller: what is counted over any list of steps, and what is promised of it. Definitions and theorems only.

#![tactic(auto)]
