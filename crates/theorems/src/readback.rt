// What `write` wrote, `read` gives back: theorems in proofs/, with what they state in specs/. Definitions and laws alone.
