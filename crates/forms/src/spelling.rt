// No code: how the lines of a call sheet are written, and that reading takes these texts and no others, stands in specs/.
