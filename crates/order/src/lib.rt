// Which rules of a plate are seen: of each pattern the first. Definitions and laws for M-107 and M-113. No code.
#![tactic(auto)]
